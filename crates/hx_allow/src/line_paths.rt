//! The paths of a line.
ghost use Rattle.std.specs.Prelude.{◌≡◌, IfOk};
ghost use Rattle.hx_target.specs.Paths.{table_path_of};
ghost use Rattle.hx_allow.specs.Matching.{is_below_path, matches_path};

use crate::path_tails::PathLengthAndLastByte;
use hx_fields::Bytes;
use hx_target::table_path;
use std::alloc::{AllocError, Global};
use std::marker::Model;

/// A path of a line, which matches itself and all below it.
#[derive(Drop)]
pub struct LinePath {
    text: Bytes,
    /// That of `text`.
    tail: PathLengthAndLastByte,
}

impl Model for LinePath {
    ghost use Rattle.std.specs.Prelude.{List, ℕ, ◌≡◌};

    ghost Value = { List ℕ };

    ghost use Rattle.hx_allow.specs.PathTails.{path_length_and_end_of};

    ghost view = { λ p. p.text };

    ghost invariant = { λ p. p.tail ≡ path_length_and_end_of p.text };
}

impl LinePath {
    /// That of a text of the table, normalised as the table path of a target.
    pub(crate) fn of(alloc: Global, text: &[u8]) -> Result<LinePath, AllocError>
        ensures { IfOk result (λ path. path ≡ table_path_of text.now) }
    {
        let text = table_path(alloc, text)?;
        Ok(LinePath {
            tail: PathLengthAndLastByte::of(text.as_slice()),
            text,
        })
    }

    /// The path itself.
    pub(crate) fn as_slice(&self) -> &[u8]
        ensures { result.now ≡ self.now }
    {
        self.text.as_slice()
    }

    /// Whether a table path is this one, or continues it with a slash.
    pub(crate) fn matches(&self, asked: &[u8]) -> bool
        ensures { result ≡ matches_path self.now asked.now }
    {
        self.tail.may_match(asked) && matches_path(self.text.as_slice(), asked)
    }
}

/// Whether a table path is the path of a line, or continues it with a slash.
fn matches_path(path: &[u8], asked: &[u8]) -> bool
    ensures { result ≡ matches_path path.now asked.now }
{
    path == b"/".as_slice() || path == asked || is_below_path(path, asked)
}

/// Whether a path begins a longer one, and a slash follows.
pub(crate) fn is_below_path(path: &[u8], asked: &[u8]) -> bool
    ensures { result ≡ is_below_path path.now asked.now }
{
    path.len() < asked.len() && &asked[..path.len()] == path && asked[path.len()] == b'/'
}
