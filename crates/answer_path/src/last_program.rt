//! The last program that a session asked, which isn't read again.

ghost use Rattle.std.specs.Prelude.{◌≡◌, IfOk, IfErr};
ghost use Rattle.sha2.specs.Sha256.{sha256};
ghost use Rattle.fz_ast.specs.Signature.{Signature};
ghost use Rattle.wire_lines.specs.Refusal.{refusal_at};
ghost use Rattle.answer_path.specs.Code.{IsProgramRefusal};
ghost use Rattle.answer_path.specs.Reading.{read, IsReading};

use crate::program::read_program;
use fz_ast::Term;
use sha2::{Digest, Sha256};
use std::alloc::Global;
use std::marker::Model;
use wire_lines::Refusal;

/// A program that was read. A contract sees its bytes.
#[derive(Drop)]
pub struct Program {
    bytes: Vec<u8>,
    term: Term,
    digest: [u8; 32],
}

impl Model for Program {
    ghost use Rattle.std.specs.Prelude.{◌≡◌, ℕ, List};
    ghost use Rattle.sha2.specs.Sha256.{sha256};
    ghost use Rattle.answer_path.specs.Reading.{read, IsReading};

    ghost Value = { List ℕ };

    ghost view = { λ program. program.bytes.items };

    ghost invariant = { λ program. IsReading program.bytes.items (read program.term) × (program.digest ≡ sha256 program.bytes.items) };
}

impl Program {
    // Reads a program.
    fn new<'s>(alloc: Global, bytes: &[u8]) -> Result<Program, Refusal<'s>>
        ensures program { IfOk result (λ program. program ≡ bytes.now) }
        ensures refused { IfErr result (λ refusal. (ts : Signature) → IsProgramRefusal ts bytes.now (refusal_at refusal)) }
    {
        let term = read_program(alloc, bytes)?;
        match Vec::from_slice(alloc, bytes) {
            Ok(copy) => Ok(Program {
                bytes: copy,
                term,
                digest: Sha256::digest(bytes),
            }),
            Err(_) => Err(Refusal::NoMemory),
        }
    }

    /// The term that it is.
    pub fn term(&self) -> &Term
        ensures { IsReading self.now (read result.now) }
    {
        &self.term
    }

    /// The SHA-256 of its bytes.
    pub fn digest(&self) -> [u8; 32]
        ensures { result ≡ sha256 self.now }
    {
        self.digest
    }
}

/// What a session keeps of its programs: the last one that it asked, where that was read.
#[derive(Drop)]
pub struct LastProgram {
    kept: Option<Program>,
}

impl LastProgram {
    /// That of a session that has asked nothing.
    pub fn none() -> LastProgram {
        LastProgram { kept: None }
    }

    /// The program of these bytes: the one that is kept, if it has just these bytes, or else it is read, and kept.
    ///
    /// # Errors
    ///
    /// What `read_program` refuses it for; or memory ran out. Nothing is kept then.
    pub fn recall_or_read<'s>(
        &mut self,
        alloc: Global,
        bytes: &[u8],
    ) -> Result<&Program, Refusal<'s>>
        ensures program { IfOk result (λ program. program.now ≡ bytes.now) }
        ensures refused { IfErr result (λ refusal. (ts : Signature) → IsProgramRefusal ts bytes.now (refusal_at refusal)) }
    {
        let program = match self.kept.take() {
            Some(program) if program.bytes.as_slice() == bytes => program,
            _ => Program::new(alloc, bytes)?,
        };
        Ok(self.kept.insert(program))
    }
}
