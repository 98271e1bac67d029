//! Parses the arguments, which select a benchmark.

/// A benchmark with its count. The count is the number of runs of each task, or the number of
/// requests of each kind.
#[derive(Clone, Copy)]
pub(crate) enum Choice {
    Passes { count: u32 },
    Desk { count: u16 },
    Http { count: u16 },
}

impl Choice {
    /// Parses the program's arguments. Returns `None` if an argument is missing, unknown, or not a
    /// valid number.
    pub(crate) fn read(words: &[String]) -> Option<Choice> {
        let [_, name, count] = words else {
            return None;
        };
        match name.as_str() {
            "passes" => Some(Choice::Passes {
                count: count.as_str().parse::<u32>().ok()?,
            }),
            "desk" => Some(Choice::Desk {
                count: count.as_str().parse::<u16>().ok()?,
            }),
            "http" => Some(Choice::Http {
                count: count.as_str().parse::<u16>().ok()?,
            }),
            _ => None,
        }
    }
}
