//! Words that texts are made of, in letters of one, two and three bytes.
use cbor4ii_bench_kit::fault::Fault;
use cbor4ii_bench_kit::noise::Noise;
use std::alloc::Global;

/// Words of ASCII.
pub const ASCII: [&str; 8] = [
    "request ",
    "accepted ",
    "from ",
    "shard ",
    "seven, ",
    "retry ",
    "in ",
    "milliseconds ",
];

/// Words of letters of two bytes.
pub const GREEK: [&str; 8] = [
    "αίτηση",
    "δεκτή",
    "από",
    "κόμβο",
    "επτά",
    "δοκιμή",
    "σε",
    "δευτερόλεπτα",
];

/// Words of letters of three bytes.
pub const JAPANESE: [&str; 8] = ["要求", "受理した", "から", "分割", "七つ", "再試行", "秒", "ミリセカンド"];

/// A text of `most` of these words or fewer, of one at least.
pub fn text(
    alloc: Global,
    noise: &mut Noise,
    words: &[&str; 8],
    most: u32,
) -> Result<String, Fault> {
    let mut text = String::new(alloc);
    for _ in 0..=noise.below(most) {
        let word = words.get(noise.below(8) as usize).unwrap_or(&"");
        text.push_str(word)?;
    }
    Ok(text)
}
