//! Rings judged by themselves: the input is taken to its end, and each of its lines answered by one reply line.
//!
//! It touches no file. Time is that of judging each ring; memory is that of the input and of the replies.

ghost use Rattle.std.specs.Prelude.{◌≡◌, ◌≢◌, IfOk, string_bytes};
ghost use Rattle.std.specs.Option.{ForSome};
ghost use Rattle.outside.specs.Outside.{NoneFell, Rose};
ghost use Rattle.message_text.specs.Limits.{IsValid};
ghost use Rattle.bgt_cli.specs.Clause.{TakesAtMost};
ghost use Rattle.bgt_cli.specs.Query.{LeavesNothingNew};
ghost use Rattle.bgt_cli.specs.Rings.{IsRingsText, JudgesRings};
ghost use Rattle.bgt_cli.specs.Status.{IsWithoutFile};

use crate::program::{final_status, tail_line};
use crate::status::Status;
use crate::stream::{PIECE, tell, zeros};
use crate::taking::take_all;
use message_text::Limits;
use outside::Outside;
use rd_plane::NoMemory;
use ring_judge::judge_rings;
use std::alloc::Global;

// What is told of an input, and the status of a run that tells all of it.
#[derive(Drop)]
struct Told {
    text: String,
    status: Status,
}

fn told_of(alloc: Global, limits: &Limits, input: &[u8]) -> Result<Told, NoMemory>
    requires { IsValid limits.now }
    ensures { IfOk result (λ a. IsRingsText limits.now input.now (string_bytes a.text) a.status) }
{
    let judged = judge_rings(alloc, limits, input)?;
    let rest = judged.rest as u64;
    let status = final_status(judged.all_fine, rest);
    let tail = tail_line(alloc, rest)?;
    let mut text = judged.replies;
    text.push_str(&tail)?;
    Ok(Told { text, status })
}

/// Takes the input to its end, and then answers each of its lines.
pub fn rings<O: Outside>(alloc: Global, limits: &Limits, outside: &mut O) -> Status
    requires { IsValid limits.now }
    ensures rings { ForSome (O.shown outside.old).input (λ input. JudgesRings limits.now input result (O.shown outside.old) (O.shown outside.new)) }
    ensures taken { TakesAtMost limits.now.input_bytes (O.shown outside.old) (O.shown outside.new) }
    ensures listed { result ≢ Status.Usage }
    ensures no_file { IsWithoutFile result }
    ensures nothing_new { LeavesNothingNew O.leaves O.clock O.left outside.old outside.new }
    ensures read_fault { result ≡ Status.ReadFault → Rose (O.faults outside.old).reads (O.faults outside.new).reads }
    ensures write_fault { result ≡ Status.WriteFault → Rose (O.faults outside.old).writes (O.faults outside.new).writes }
    ensures counts { NoneFell (O.faults outside.old) (O.faults outside.new) }
{
    let Ok(mut piece) = zeros(alloc, PIECE) else {
        return Status::NoMemory;
    };
    let mut input = Vec::new(alloc);
    if let Err(status) = take_all(limits, &mut piece, &mut input, outside) {
        return status;
    }
    let Ok(told) = told_of(alloc, limits, &input) else {
        return Status::NoMemory;
    };
    match tell(outside, told.text.as_bytes()) {
        Ok(()) => told.status,
        Err(_) => Status::WriteFault,
    }
}
