//! Long texts that consist of repeated pieces.

use std::alloc::{AllocError, Global};

/// The number of repetitions of a text, and the text.
pub type Piece = (usize, &'static str);

fn append(text: &mut String, piece: &Piece) -> Result<(), AllocError> {
    for _ in 0..piece.0 {
        text.push_str(piece.1)?;
    }
    Ok(())
}

pub fn join(alloc: Global, pieces: &[Piece]) -> Result<String, AllocError> {
    let mut text = String::new(alloc);
    for piece in pieces {
        append(&mut text, piece)?;
    }
    Ok(text)
}
