//! Replies: a status, and all that is to be written with it.

ghost use Rattle.std.specs.Prelude.{◌≡◌, ◌++◌, [], IfOk, None, OnOk, length};
ghost use Rattle.std.specs.Fmt.{decimal};
ghost use Rattle.xs_record.specs.Segment.{items_of};
ghost use Rattle.xs_reply.specs.Answer.{document_of, fault_line, faultless, file_fault_line};
ghost use Rattle.xs_reply.specs.Answer.{message_lines as lines_of, name_in, no_pieces};
ghost use Rattle.xs_reply.specs.Answer.{read_fault, refused_file, reported, result_of};
ghost use Rattle.xs_reply.specs.Answer.{stats_line, stats_lines, stopped_answer, usage};
ghost use Rattle.xs_reply.specs.Items.{events_in};
ghost use Rattle.xs_reply.specs.ReadBack.{ReadsAs};
ghost use Rattle.xs_reply.specs.Reply.{IsPlain, reply_of};
ghost use Rattle.xs_reply.specs.declared.status.TheConstants.{OK};
ghost use Rattle.xs_result_laws.specs.Events.{IsResult};

use crate::faults::{UNREADABLE, fault_name, run_fault_name};
use crate::items::{message_lines, result_bytes};
use crate::status::{OK, READ_FAULT, REFUSED, RUN_FAULT, USAGE};
use itoa::Buffer;
use std::alloc::{AllocError, Global};
use xs_block::chain::Chain;
use xs_core::place::Claim;
use xs_record::segment::Segment;
use xs_sheet::declarations::Method;
use xs_sheet::sheet::Sheet;
use xs_text::{TextBuf, escape_into};
use xs_trace::item::Spot;
use xs_words::USAGE as USAGE_LINE;

/// The fault that ended a run.
#[derive(Debug, Drop)]
pub struct ReportedFault {
    /// Its number.
    pub number: u8,
    /// The name of the module or source that has it.
    pub module: TextBuf,
    /// The line there; 0 is the file as a whole.
    pub line: u32,
}

/// A status, and all that is to be written with it.
#[derive(Drop)]
pub struct Reply {
    /// The status, as in a report.
    pub status: u8,
    /// The bytes of the result; none on a status other than `OK`.
    pub result: Vec<u8>,
    /// The bytes of the lines for the user, each line ended by a line feed.
    pub lines: Vec<u8>,
    /// The fault that the last of them names, if there is one.
    pub fault: Option<ReportedFault>,
    /// The ticks that passed the cut.
    pub ticks: u64,
    /// How its pieces were run.
    pub pieces: Pieces,
}

/// How the pieces of a run were run.
#[derive(Drop)]
pub struct Pieces {
    /// Who claimed which place, in the order of places.
    pub claims: Vec<Claim>,
    /// How many pieces were evaluated again in their place.
    pub inline: u64,
    /// How many ticks they took, with those that were taken again.
    pub worked: u64,
    /// What they recorded, joined.
    pub items: Chain<Segment>,
}

impl Pieces {
    /// No pieces.
    pub fn none(alloc: Global) -> Pieces
        ensures claims { result.claims.items ≡ [] }
        ensures inline { result.inline ≡ 0 }
        ensures worked { result.worked ≡ 0 }
    {
        Pieces {
            claims: Vec::new(alloc),
            inline: 0,
            worked: 0,
            items: Chain::new(alloc),
        }
    }
}

/// Refused arguments.
pub fn usage_reply(alloc: Global) -> Result<Reply, AllocError>
    ensures { IfOk result (IsPlain usage) }
{
    let mut lines = Vec::new(alloc);
    lines.extend_from_slice(USAGE_LINE.as_bytes())?;
    lines.extend_from_slice(b"\n")?;
    Ok(Reply {
        status: USAGE,
        result: Vec::new(alloc),
        lines,
        fault: None,
        ticks: 0,
        pieces: Pieces::none(alloc),
    })
}

/// A file that could not be read.
pub fn read_fault_reply(alloc: Global, name: &TextBuf) -> Result<Reply, AllocError>
    ensures { IfOk result (IsPlain (read_fault name.now)) }
{
    let lines = file_fault(alloc, UNREADABLE, name, 0)?;
    Ok(Reply {
        status: READ_FAULT,
        result: Vec::new(alloc),
        lines,
        fault: Some(reported(alloc, UNREADABLE, name.as_str(), 0)?),
        ticks: 0,
        pieces: Pieces::none(alloc),
    })
}

/// A file that is refused: it has this fault at this line.
pub fn refused_reply(
    alloc: Global,
    fault: u8,
    name: &TextBuf,
    line: u32,
) -> Result<Reply, AllocError>
    ensures { IfOk result (IsPlain (refused_file fault name.now line)) }
{
    let lines = file_fault(alloc, fault, name, line)?;
    Ok(Reply {
        status: REFUSED,
        result: Vec::new(alloc),
        lines,
        fault: Some(reported(alloc, fault, name.as_str(), line)?),
        ticks: 0,
        pieces: Pieces::none(alloc),
    })
}

/// A stylesheet that was only checked, and has no fault.
pub fn faultless_reply(alloc: Global) -> Reply
    ensures { IsPlain faultless result }
{
    Reply {
        status: OK,
        result: Vec::new(alloc),
        lines: Vec::new(alloc),
        fault: None,
        ticks: 0,
        pieces: Pieces::none(alloc),
    }
}

/// An evaluation that ended whole, and the method that writes its result: the messages and ticks of
/// the globals come first.
pub fn whole_reply(
    alloc: Global,
    method: Method,
    says: &[TextBuf],
    more: &[TextBuf],
    items: &Chain<Segment>,
    ticks: u64,
) -> Result<Reply, AllocError>
    ensures answer { IfOk result (λ reply. reply_of reply ≡ record {
      status = OK;
      result = result_of method (events_in (items_of items.now));
      lines = lines_of (says.now ++ more.now);
      fault = None;
      ticks = ticks;
      pieces = no_pieces;
      document = None;
    }) }
    ensures reads_back { IfOk result (λ reply. IsResult (events_in (items_of items.now))
        → ReadsAs (document_of method (events_in (items_of items.now))) reply.result.items) }
{
    Ok(Reply {
        status: OK,
        result: result_bytes(alloc, method, items)?,
        lines: message_lines(alloc, says, more)?,
        fault: None,
        ticks,
        pieces: Pieces::none(alloc),
    })
}

/// An evaluation that ended in a fault, in the module of that number.
pub fn stopped_reply(
    alloc: Global,
    sheet: &Sheet,
    spot: Spot,
    says: &[TextBuf],
    more: &[TextBuf],
    ticks: u64,
) -> Result<Reply, AllocError>
    ensures { IfOk result (IsPlain (stopped_answer sheet.now.modules spot
        (says.now ++ more.now) ticks no_pieces)) }
{
    let result = Vec::new(alloc);
    let messages = message_lines(alloc, says, more)?;
    let number = spot.fault.number();
    let name = module_name(sheet, spot.module);
    let lines = append_fault(
        messages,
        number,
        run_fault_name(spot.fault),
        name,
        spot.line,
    )?;
    Ok(Reply {
        status: RUN_FAULT,
        result,
        lines,
        fault: Some(reported(alloc, number, name, spot.line)?),
        ticks,
        pieces: Pieces::none(alloc),
    })
}

/// The same of a run that came to its end in pieces: with the line that reports how many ticks and
/// pieces it took, where that is asked for.
pub fn with_stats(reply: Reply, pieces: Pieces, stats: bool) -> Result<Reply, AllocError>
    ensures answer { IfOk result (λ all. reply_of all ≡ record (reply_of reply) {
      lines = reply.lines.items
          ++ stats_lines stats reply.ticks (length pieces.claims.items);
    }) }
    ensures pieces { IfOk result (λ all. all.pieces ≡ pieces) }
{
    let mut all = with_pieces(reply, pieces);
    if stats {
        let count = all.pieces.claims.len() as u64;
        append_stats(&mut all.lines, all.ticks, count)?;
    }
    Ok(all)
}

/// The same of a run in pieces.
pub fn with_pieces(reply: Reply, pieces: Pieces) -> Reply
    ensures answer { reply_of result ≡ reply_of reply }
    ensures pieces { result.pieces ≡ pieces }
{
    let Reply {
        status,
        result,
        lines,
        fault,
        ticks,
        ..
    } = reply;
    Reply {
        status,
        result,
        lines,
        fault,
        ticks,
        pieces,
    }
}

/// Appends the line that reports how many ticks and pieces a run took.
fn append_stats(lines: &mut Vec<u8>, ticks: u64, pieces: u64) -> Result<(), AllocError>
    ensures { OnOk result (lines.new.items ≡ lines.old.items ++ stats_line ticks pieces) }
{
    lines.extend_from_slice(b"stats ")?;
    append_count(lines, ticks)?;
    lines.extend_from_slice(b" ")?;
    append_count(lines, pieces)?;
    lines.extend_from_slice(b"\n")
}

/// Appends a count in decimal.
fn append_count(out: &mut Vec<u8>, count: u64) -> Result<(), AllocError>
    ensures { OnOk result (out.new.items ≡ out.old.items ++ decimal count) }
{
    let mut digits = Buffer::new();
    out.extend_from_slice(digits.format(count).as_bytes())
}

/// The name of a module of a stylesheet, by its number.
fn module_name(sheet: &Sheet, number: u32) -> &str
    ensures { result.now ≡ name_in sheet.now.modules number }
{
    match sheet.modules.as_slice().get(number as usize) {
        Some(name) => name.as_str(),
        None => "",
    }
}

/// A fault, by its number, the name of its module, and the line there.
fn reported(alloc: Global, number: u8, name: &str, line: u32) -> Result<ReportedFault, AllocError>
    ensures { IfOk result (λ fault. fault ≡ reported number name.now line) }
{
    Ok(ReportedFault {
        number,
        module: TextBuf::of(alloc, name)?,
        line,
    })
}

/// The line of a fault of a file.
fn file_fault(alloc: Global, fault: u8, name: &TextBuf, line: u32) -> Result<Vec<u8>, AllocError>
    ensures { IfOk result (λ lines. lines.items ≡ file_fault_line fault name.now line) }
{
    append_fault(
        Vec::new(alloc),
        fault,
        fault_name(fault),
        name.as_str(),
        line,
    )
}

/// Appends the line of a fault, by its number and name, to other lines.
fn append_fault(
    lines: Vec<u8>,
    number: u8,
    fault: &str,
    name: &str,
    line: u32,
) -> Result<Vec<u8>, AllocError>
    ensures { IfOk result (λ all.
        all.items ≡ lines.items ++ fault_line number fault.now name.now line) }
{
    let mut all = lines;
    all.extend_from_slice(b"fault ")?;
    append_number(&mut all, u32::from(number))?;
    all.extend_from_slice(b" ")?;
    all.extend_from_slice(fault.as_bytes())?;
    all.extend_from_slice(b" ")?;
    escape_into(&mut all, name)?;
    all.extend_from_slice(b" ")?;
    append_number(&mut all, line)?;
    all.extend_from_slice(b"\n")?;
    Ok(all)
}

/// Appends a number in decimal.
fn append_number(out: &mut Vec<u8>, number: u32) -> Result<(), AllocError>
    ensures { OnOk result (out.new.items ≡ out.old.items ++ decimal number) }
{
    let mut digits = Buffer::new();
    out.extend_from_slice(digits.format(number).as_bytes())
}
