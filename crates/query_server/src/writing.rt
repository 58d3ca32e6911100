//! What is written at the end of a command.

ghost use Rattle.std.specs.Prelude.{◌≡◌, ◌⊎◌, ℕ, ◌≤◌, List, Err, OnOk, OnErr, IsErr};
ghost use Rattle.std.specs.Io.KnownBytes.{append_known};
ghost use Rattle.fz_outside.specs.Faults.{HasCause, HasRisen};
ghost use Rattle.query_server.specs.Status.{refused_text};
ghost use Rattle.query_server.specs.Due.{IsBeginning};
ghost use Rattle.query_server.specs.Ends.{IsEndingWith, text_at};

use crate::end::{End, Status, status_of};
use catalog_loading::Stop;
use fz_outside::Failed;
use fz_outside::sink::{Sink, put};

/// Writes a piece of a line, or a prefix of it.
fn put_piece<K: Sink>(sink: &mut K, piece: &[u8]) -> Result<(), Failed>
    ensures ok { OnOk result (K.contents sink.new ≡ append_known (K.contents sink.old) piece.now) }
    ensures err { OnErr result ((text : List ℕ) × IsBeginning text piece.now × (K.contents sink.new ≡ append_known (K.contents sink.old) text)) }
    ensures cause { HasCause (K.faults sink.old) (K.faults sink.new) (IsErr result) }
{
    put(sink, piece)
}

/// Writes that the file or the owner of this name is refused.
fn write_refused<K: Sink>(sink: &mut K, name: &str) -> Result<(), Failed>
    ensures ok { OnOk result (K.contents sink.new ≡ append_known (K.contents sink.old) (refused_text name.now)) }
    ensures err { OnErr result ((text : List ℕ) × IsBeginning text (refused_text name.now)
        × (K.contents sink.new ≡ append_known (K.contents sink.old) text)) }
    ensures cause { HasCause (K.faults sink.old) (K.faults sink.new) (IsErr result) }
{
    put_piece(sink, b"refused ")?;
    put_piece(sink, name.as_bytes())?;
    put_piece(sink, b"\n")
}

/// Writes what a command has to say at its end, or at what stopped it.
fn write_end<K: Sink>(sink: &mut K, ended: &Result<End, Stop>) -> Result<(), Failed>
    ensures ok { OnOk result (K.contents sink.new ≡ append_known (K.contents sink.old) (text_at ended.now)) }
    ensures err { OnErr result ((text : List ℕ) × IsBeginning text (text_at ended.now)
        × (K.contents sink.new ≡ append_known (K.contents sink.old) text)) }
    ensures cause { HasCause (K.faults sink.old) (K.faults sink.new) (IsErr result) }
{
    match ended {
        Ok(end) => put_piece(sink, end.text()),
        Err(Stop::Usage) => put_piece(sink, b"usage\n"),
        Err(Stop::Refused(name)) => write_refused(sink, name),
        Err(Stop::Journal(line)) => put_piece(sink, line),
        Err(Stop::Disk(line)) => put_piece(sink, line),
        Err(Stop::Fault) => Ok(()),
        Err(Stop::NoMemory) => put_piece(sink, b"memory\n"),
    }
}

/// Writes what a command has to say, and gives the status.
pub(crate) fn finish<K: Sink>(sink: &mut K, ended: &Result<End, Stop>) -> Status
    ensures written { (text : List ℕ) × (K.contents sink.new ≡ append_known (K.contents sink.old) text) × IsEndingWith ended.now result text }
    ensures sink { K.faults sink.old ≤ K.faults sink.new }
    ensures fault { result ≡ Status.Fault → (ended.now ≡ Err Stop.Fault) ⊎ HasRisen (K.faults sink.old) (K.faults sink.new) }
{
    match write_end(sink, ended) {
        Ok(()) => status_of(ended),
        Err(Failed) => Status::Fault,
    }
}
