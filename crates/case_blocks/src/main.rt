// RFC 1071's own examples; each refusal of the reader and the writer reached, with its block, its record and the lent memory shown; a trace that fills 64 blocks.
#![tactic(auto)]

use block::BLOCK;
use block_check::{check_of, sum};
use block_columns::Columns;
use block_image::{BLOCKS_MOST, ImageRefusal, Trace};
use block_layout::seal;
use block_reader::read;
use block_writer::write;
use refusals::Refusal;
use std::io;
use units::{INSTANT_MOST, Settings, Ticks};

// RFC 1071's own examples: the sum of section 3 in its two byte orders, an odd last byte as the high half of a word, and checks;
// and a sum that one fold would leave a carry in.
fn sums(rt: &impl Print) -> io::Result<()> {
    println!(rt; "{:04x}", sum(b"\x00\x01\xf2\x03\xf4\xf5\xf6\xf7"))?;
    println!(rt; "{:04x}", sum(b"\x01\x00\x03\xf2\xf5\xf4\xf7\xf6"))?;
    println!(rt; "{:04x}", sum(b"\x00\x01\xf2"))?;
    println!(rt; "{:04x}", sum(b"\xff\xff\xff\xff\x01\x00"))?;
    println!(rt;
        "{:04x}",
        check_of(b"\xff\xff\x00\x01\xf2\x03\xf4\xf5\xf6\xf7")
    )?;
    println!(rt; "{:04x}", check_of(b"\x00\x00\xff\xff"))
}

// An answer is printed in one place, here and below: a type around the Result for a Display would be longer.
fn show_reading(rt: &impl Print, answer: Result<Trace, ImageRefusal>) -> io::Result<()> {
    match answer {
        Ok(trace) => {
            let Trace { settings, events } = trace;
            print!(rt;
                "accepted {} {} {events} ",
                settings.alpha.0, settings.ticks_per_byte
            )
        }
        Err(r) => print!(rt; "refused {} {} {} ", u8::from(r.refusal), r.block, r.record),
    }
}

fn show_writing(rt: &impl Print, answer: Result<usize, Refusal>) -> io::Result<()> {
    match answer {
        Ok(bytes) => print!(rt; "written {bytes} "),
        Err(refusal) => print!(rt; "refused {} ", u8::from(refusal)),
    }
}

// Columns that were lent to the reader: the instants may have another length than the others.
#[derive(Drop)]
struct Lent<const N: usize, const T: usize> {
    kinds: [u8; N],
    lengths: [u32; N],
    places: [u32; N],
    instants: [u64; T],
}

// Reads into columns of 77s, and shows the answer.
fn read_into<const N: usize, const T: usize>(
    rt: &impl Print,
    image: &[u8],
) -> io::Result<Lent<N, T>> {
    let mut kinds = [77; N];
    let mut lengths = [77; N];
    let mut places = [77; N];
    let mut instants = [77; T];
    show_reading(
        rt,
        read(image, &mut kinds, &mut lengths, &mut places, &mut instants),
    )?;
    Ok(Lent {
        kinds,
        lengths,
        places,
        instants,
    })
}

// Reads into columns of 33 entries, and shows the first entries and the last kind.
fn reading(rt: &impl Print, image: &[u8]) -> io::Result<()> {
    let Lent {
        kinds,
        lengths,
        places,
        instants,
    } = read_into::<33, 33>(rt, image)?;
    println!(rt;
        "{} {} {} {} {} ",
        kinds[0], lengths[0], places[0], instants[0], kinds[32]
    )
}

// The same with an image that was cut within a block.
fn cut(rt: &impl Print, image: &[u8]) -> io::Result<()> {
    match image.get(..1000) {
        Some(part) => reading(rt, part),
        None => Ok(()),
    }
}

// The same with one column that is one entry short of 32 events.
fn reading_short(rt: &impl Print, image: &[u8]) -> io::Result<()> {
    let Lent {
        kinds,
        instants,
        ..
    } = read_into::<33, 31>(rt, image)?;
    println!(rt; "{} {} ", kinds[0], instants[0])
}

// Reads into columns with room for one event more than a trace has, and shows the last two kinds and the last instant.
fn reading_most(rt: &impl Print, image: &[u8]) -> io::Result<()> {
    let Lent {
        kinds,
        instants,
        ..
    } = read_into::<1985, 1985>(rt, image)?;
    println!(rt; "{} {} {} ", kinds[1983], kinds[1984], instants[1983])
}

// An image of two blocks with bytes changed, each told by its place, and the checks left as they were.
fn changed(image: [u8; 1024], changes: &[(usize, u8)]) -> [u8; 1024] {
    let mut other = image;
    for (at, value) in changes {
        if let Some(byte) = other.get_mut(*at) {
            *byte = *value;
        }
    }
    other
}

// The same with both checks made right again.
fn sealed(image: [u8; 1024], changes: &[(usize, u8)]) -> [u8; 1024] {
    let mut other = changed(image, changes);
    seal(&mut other, 0);
    seal(&mut other, BLOCK);
    other
}

// One refusal after another; the last but two makes record 30 of block 0 an advance of length 0, which keeps its place.
const CHANGES: [&[(usize, u8)]; 15] = [
    &[(2, 2)],
    &[(3, 30)],
    &[(515, 0)],
    &[(515, 32)],
    &[(519, 2)],
    &[(523, 101)],
    &[(527, 1)],
    &[(16, 4)],
    &[(496, 0)],
    &[(17, 1)],
    &[(258, 9)],
    &[(531, 0)],
    &[(496, 3), (499, 0)],
    &[(280, 1)],
    &[(1023, 1)],
];

// Writes a packet of one length at place 7 and instant 9 for each kind, and shows the answer.
fn writing(
    rt: &impl Print,
    alpha: u64,
    ticks_per_byte: u16,
    kinds: &[u8],
    length: u32,
    image: &mut [u8],
) -> io::Result<()> {
    let settings = Settings {
        alpha: Ticks(alpha),
        ticks_per_byte,
    };
    let columns = Columns {
        kinds,
        lengths: &[length; 32],
        places: &[7; 32],
        instants: &[9; 32],
    };
    show_writing(rt, write(settings, columns, image))
}

// Writes 32 packets, and gives the image of two blocks.
fn written(rt: &impl Print) -> io::Result<[u8; 1024]> {
    let mut image = [55; 1024];
    writing(rt, 100, 1, &[1; 32], 50, &mut image)?;
    println!(rt)?;
    Ok(image)
}

// The refusals of settings, lengths and events.
fn unwritable(rt: &impl Print, image: &mut [u8]) -> io::Result<()> {
    writing(rt, 0, 1, &[1; 32], 50, image)?;
    writing(rt, 100, 65, &[1; 32], 50, image)?;
    writing(rt, 100, 1, &[1; 31], 50, image)?;
    writing(rt, 100, 1, &[4; 32], 50, image)?;
    writing(rt, 100, 1, &[1; 32], 2049, image)
}

// These and the refusal of an image one byte short, and the image of 55s after them.
fn writer_cases(rt: &impl Print) -> io::Result<()> {
    let mut image = [55u8; 1024];
    unwritable(rt, &mut image)?;
    writing(rt, 100, 1, &[1; 32], 50, &mut image[1..])?;
    println!(rt; "{} {} ", image[0], image[1023])
}

// Writes as many advances, with zeros for lengths and places, and shows the answer.
fn advances(
    rt: &impl Print,
    kinds: &[u8],
    zeros: &[u32],
    instants: &[u64],
    image: &mut [u8],
) -> io::Result<()> {
    let settings = Settings {
        alpha: Ticks(1_000_000),
        ticks_per_byte: 64,
    };
    let columns = Columns {
        kinds,
        lengths: zeros,
        places: zeros,
        instants,
    };
    show_writing(rt, write(settings, columns, image))
}

// No event, one too many, and 1,984 events in 64 blocks, read again.
fn counts(rt: &impl Print) -> io::Result<()> {
    let kinds = [3; 1985];
    let zeros = [0; 1985];
    let instants = [INSTANT_MOST; 1985];
    let mut image = [55; BLOCKS_MOST * BLOCK];
    for n in [0, 1985, 1984] {
        advances(rt, &kinds[..n], &zeros[..n], &instants[..n], &mut image)?;
    }
    reading_most(rt, &image)
}

fn main(rt: HostRuntime) -> io::Result<()> {
    sums(&rt)?;
    let image = written(&rt)?;
    reading(&rt, &image)?;
    reading_short(&rt, &image)?;
    cut(&rt, &image)?;
    reading(&rt, b"")?;
    reading(&rt, &changed(image, &[(600, 1)]))?;
    for changes in CHANGES {
        reading(&rt, &sealed(image, changes))?;
    }
    writer_cases(&rt)?;
    counts(&rt)
}
