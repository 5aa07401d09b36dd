//! How long a catalogue is.

ghost use Rattle.std.specs.Prelude.{◌≡◌, length, IfOk};
ghost use Rattle.act_model.specs.Catalogue.{catalogue};

use act_model::Shelf;
use catalogue_export::export;
use desk_io::{Failed, Sink};
use item_list::NoMemory;
use std::alloc::{AllocError, Global};
use std::marker::Model;

/// A sink that lets each byte go.
#[derive(Drop)]
struct Unread {
    is_open: bool,
}

impl Sink for Unread {
    ghost use Rattle.std.specs.Prelude.{None};

    ghost taken = { λ sink. None };

    ghost faults = { λ sink. 0 };

    ghost is_open = { λ sink. sink.is_open };

    fn write(&mut self, piece: &[u8]) -> Result<usize, Failed> {
        Ok(piece.len())
    }

    fn end(&mut self) {
        self.is_open = false;
    }
}

/// How many bytes the catalogue of an office has. It takes memory.
///
/// # Errors
///
/// Memory was refused, or it has more bytes than a number of 64 bits counts.
pub(crate) fn catalogue_bytes<V: Shelf>(alloc: Global, shelf: &V) -> Result<u64, NoMemory>
    ensures { IfOk result (λ bytes. bytes ≡ length (catalogue (V.history shelf.now))) }
{
    let mut sink = Unread { is_open: true };
    match export(alloc, shelf, &mut sink) {
        Ok(bytes) if bytes < u64::MAX => Ok(bytes),
        _ => Err(AllocError),
    }
}
