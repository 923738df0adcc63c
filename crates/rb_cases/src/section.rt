use rb_base::SiteId;
use std::str::SplitWhitespace;

/// What a section of a case says.
#[derive(Clone, Copy, Debug, PartialEq, Eq)]
pub(crate) enum Target {
    Words,
    Input,
    Source,
    Sink,
    /// The failing calls of a site's device.
    Disk(SiteId),
    /// A file of a site's device, before the call.
    Held(SiteId, u32),
    Status,
    Output,
    /// A file of a site's device, after the call.
    File(SiteId, u32),
    Left,
}

/// The line that begins a section, in brackets.
#[derive(Clone, Copy, Debug)]
pub(crate) struct Heading {
    pub(crate) target: Target,
    /// Whether the section's lines are bytes in hexadecimal.
    pub(crate) is_hex: bool,
    /// How many times the section's bytes are taken.
    pub(crate) times: u64,
    /// How many of its bytes are taken at most.
    pub(crate) first: usize,
}

/// Returns what the text in brackets says, such as `input`, `input hex`, `input 25 times` or
/// `file A 1 first 115`. Returns `None` if there is no such heading.
pub(crate) fn heading_of(text: &str) -> Option<Heading> {
    let mut words = text.split_whitespace();
    let target = target_of(&mut words)?;
    let mut heading = Heading {
        target,
        is_hex: matches!(target, Target::Held(..) | Target::File(..)),
        times: 1,
        first: usize::MAX,
    };
    let mut word = words.next();
    if word == Some("hex") {
        heading.is_hex = true;
        word = words.next();
    }
    match word {
        None => {}
        Some("first") => heading.first = words.next()?.parse::<usize>().ok()?,
        Some(times) => {
            heading.times = times.parse::<u64>().ok()?;
            if words.next() != Some("times") {
                return None;
            }
        }
    }
    match words.next() {
        None => Some(heading),
        Some(_) => None,
    }
}

// Returns the target that the first words name.
fn target_of(words: &mut SplitWhitespace<'_>) -> Option<Target> {
    match words.next()? {
        "words" => Some(Target::Words),
        "input" => Some(Target::Input),
        "source" => Some(Target::Source),
        "sink" => Some(Target::Sink),
        "disk" => Some(Target::Disk(site_of(words.next()?)?)),
        "held" => Some(Target::Held(site_of(words.next()?)?, file_of(words.next()?)?)),
        "status" => Some(Target::Status),
        "output" => Some(Target::Output),
        "file" => Some(Target::File(site_of(words.next()?)?, file_of(words.next()?)?)),
        "left" => Some(Target::Left),
        _ => None,
    }
}

// Returns the site of this letter.
fn site_of(word: &str) -> Option<SiteId> {
    match word {
        "A" => Some(SiteId::A),
        "B" => Some(SiteId::B),
        _ => None,
    }
}

// Returns the number of a file.
fn file_of(word: &str) -> Option<u32> {
    word.parse::<u32>().ok()
}
