use std::alloc::{AllocError, Global};

/// The expected status and text of a run.
#[derive(Clone, Copy, Debug)]
pub enum End {
    /// The run ends with status 0, and prints this text and a line feed.
    Writes(&'static str),
    /// The run ends with this status, and prints exactly this text.
    Prints(u8, &'static str),
    /// The run ends with this status, and its text starts with this prefix.
    Begins(u8, &'static str),
}

/// The status of a run, and the text on standard output or on standard error.
#[derive(Debug, Drop)]
pub struct Output {
    pub status: u8,
    pub text: String,
}

impl Output {
    pub fn begins(&self, status: u8, front: &str) -> bool {
        self.status == status && self.text.as_str().starts_with(front)
    }
}

fn is_line(text: &str, line: &str) -> bool {
    match text.strip_suffix('\n') {
        Some(text) => text == line,
        None => false,
    }
}

impl End {
    pub fn fits(&self, output: &Output) -> bool {
        let text = output.text.as_str();
        match self {
            End::Writes(line) => output.status == 0 && is_line(text, line),
            End::Prints(status, whole) => output.status == *status && text == *whole,
            End::Begins(status, front) => output.begins(*status, front),
        }
    }
}

/// Returns the start of the message about an unknown form of passes.
pub fn form_line(alloc: Global, form: &str) -> Result<String, AllocError> {
    format!(in alloc;
        "error: invalid value '{form}' for '--form <FORM>'\n  [possible values: v1, v2, json]\n"
    )
}
