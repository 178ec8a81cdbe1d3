//! Histories: calls made of a live core since its release, kept with the answer to each.
#![tactic(auto)]

pub mod watching;

ghost use Rattle.std.specs.Prelude.{◌≡◌, ◌+◌, ◌-◌, ◌<◌, ◌≤◌, min, [], ◌∷◌, ◌++◌, length, take, drop};
ghost use Rattle.machine.specs.Histories.{Did};
ghost use Rattle.risc5.specs.Set.{card, pace};
ghost use Rattle.cpu.specs.Cores.{state};
ghost use Rattle.history.specs.Asked.{part_of, way_of, wrote, wrote_all, call_of, calls_of, asked, given};
ghost use Rattle.history.specs.Kept.{Kept, start};

use bus::Bus;
use cpu::{Held, Live};
use machine::Record;
use refusal::Refusal;

/// How a request is to be met.
#[derive(Clone, Copy, PartialEq, Eq, Debug)]
pub enum Way {
    ByClock,
    ByLeap,
}

/// What is asked of a live core: to take `count` of the lines, from the line `first` on, by clock or by leap.
#[derive(Clone, Copy, PartialEq, Eq, Debug)]
pub struct Request {
    pub way: Way,
    pub first: usize,
    pub count: usize,
}

/// What it answered.
#[derive(Clone, Copy, PartialEq, Eq, Debug)]
pub enum Answer {
    Clocked(Result<(u32, u32), Refusal>),
    Leapt(Result<(u32, u32, u32), Refusal>),
}

// The lines of a request.
fn part(lines: &[u8], request: Request) -> &[u8]
    ensures { result.now ≡ part_of lines.now request }
{
    let rest = lines.get(request.first..).unwrap_or(&[]);
    let count = request.count.min(rest.len());
    &rest[..count]
}

impl Answer {
    /// How many records it tells of.
    pub fn records(self) -> usize
        ensures { result ≡ wrote self }
    {
        match self {
            Answer::Leapt(Ok((_, written, _))) => written as usize,
            Answer::Leapt(Err(_)) | Answer::Clocked(_) => 0,
        }
    }
}

// One call, as asked.
fn ask<B: Bus>(live: &mut Live, bus: &mut B, lines: &[u8], way: Way, trace: &mut [Record]) -> Answer
    ensures way { way_of result ≡ way }
    ensures room { wrote result ≤ length trace.old }
    ensures trace { drop (wrote result) trace.new ≡ drop (wrote result) trace.old }
    ensures did { Did B.Bus.meaning card pace (state live.old (B.Bus.contents bus.old)) (call_of lines.now (length trace.old) trace.new result) (state live.new (B.Bus.contents bus.new)) }
{
    match way {
        Way::ByClock => Answer::Clocked(live.clock(bus, lines)),
        Way::ByLeap => Answer::Leapt(live.leap(bus, lines, trace)),
    }
}

// One call whose records, if any, go behind those that are there.
fn ask_behind<B: Bus>(
    live: &mut Live,
    bus: &mut B,
    lines: &[u8],
    way: Way,
    trace: &mut [Record],
    records: usize,
) -> Answer
    requires { records ≤ length trace.old }
    ensures way { way_of result ≡ way }
    ensures room { records + wrote result ≤ length trace.old }
    ensures before { take records trace.new ≡ take records trace.old }
    ensures behind { drop (records + wrote result) trace.new ≡ drop (records + wrote result) trace.old }
    ensures did { Did B.Bus.meaning card pace (state live.old (B.Bus.contents bus.old)) (call_of lines.now (length trace.old - records) (drop records trace.new) result) (state live.new (B.Bus.contents bus.new)) }
{
    ask(live, bus, lines, way, &mut trace[records..])
}

// The buffers are the caller's, so that nothing is allocated and no call fails; their counts are told here.
/// A history that was played: the core at its end, how many requests were met, and how many records were written.
#[derive(Drop)]
pub struct Played {
    pub live: Live,
    pub met: usize,
    pub records: usize,
}

/// Releases a held core on a bus and meets requests one after the other, refused ones too, as long as there is room for answers: keeps the answer to
/// each in `answers`, and the records of each leap in `trace`, behind those of the leap before it. The contract tells of the core, the bus and the
/// answers kept what holds of every history.
pub fn play<B: Bus>(
    held: Held,
    bus: &mut B,
    lines: &[u8],
    requests: &[Request],
    answers: &mut [Answer],
    trace: &mut [Record],
) -> Played
    ensures met { result.met ≡ min (length requests.now) (length answers.old) }
    ensures ways { given (take result.met answers.new) ≡ asked (take result.met requests.now) }
    ensures records { result.records ≡ wrote_all (take result.met answers.new) }
    ensures answers { drop result.met answers.new ≡ drop result.met answers.old }
    ensures trace { drop result.records trace.new ≡ drop result.records trace.old }
    ensures kept { Kept B.Bus.meaning (start B.Bus.meaning held (B.Bus.contents bus.old)) (calls_of (length trace.old) lines.now (take result.met requests.now) (take result.met answers.new) (take result.records trace.new)) (state result.live (B.Bus.contents bus.new)) }
{
    let mut live = held.release(bus);
    let met = requests.len().min(answers.len());
    let mut records = 0;
    for (at, request) in requests[..met].iter().enumerate() {
        let answer = ask_behind(
            &mut live,
            bus,
            part(lines, *request),
            request.way,
            trace,
            records,
        );
        // By its place: what a zip with `iter_mut` wrote is not known to a proof once the loop has ended.
        answers[at] = answer;
        records += answer.records();
    }
    Played { live, met, records }
}
