// Runs a count, if the words ask for one.
ghost use Rattle.std.specs.Prelude.{◌≡◌, ◌≢◌, IfSome, map, string_bytes};
ghost use Rattle.berth_face.specs.Causes.{Rose};
ghost use Rattle.berth_face.specs.Streams.{TakesAtMost};
ghost use Rattle.run_ends.specs.Outcome.{IsRefused, IfScript, TakesText, UnlessCutOff, UnlessWritten};
ghost use Rattle.run_ends.specs.Source.{most_taken};
ghost use Rattle.row_count.specs.Outcome.{IsCounted, IsCutShort, count_verdict};
ghost use Rattle.run_words.specs.Words.{IfCount, UnlessCount, request_of};

use crate::words::{Request, request_of};
use berth_face::{Sink, Source};
use row_count::count_source;
use run_ends::Status;
use std::alloc::Global;
use std::thread::Threads;

/// Counts the rows of a source, if the words ask for that. For other words the status is Words, and it takes and writes
/// nothing.
pub fn run_count<R: Threads + Sync, S: Source, K: Sink>(
    rt: &R,
    alloc: Global,
    words: &[String],
    source: &mut S,
    sink: &mut K,
) -> Status
    ensures done { IfCount (request_of (map string_bytes words.now)) (λ range. result ≡ Status.Done →
        IsCounted range (S.left source.old) (S.left source.new) (K.written sink.old) (K.written sink.new)) }

    // Each other status has its cause, except want of memory.
    ensures words { IfCount (request_of (map string_bytes words.now)) (λ range. result ≢ Status.Words) }
    ensures script { IfCount (request_of (map string_bytes words.now)) (λ range.
        IfScript result (IsRefused (count_verdict range) (S.left source.old) (S.left source.new))) }
    ensures read_fault { result ≡ Status.ReadFault → Rose (S.faults source.old) (S.faults source.new) }
    ensures write_fault { result ≡ Status.WriteFault → Rose (K.faults sink.old) (K.faults sink.new) }
    ensures exact { IfCount (request_of (map string_bytes words.now)) (λ range. IfSome (S.left source.old)
        (λ text. UnlessCutOff result (result ≡ count_verdict range text))) }

    // What is taken and written.
    ensures takes { TakesAtMost (S.left source.old) (S.left source.new) most_taken }
    ensures too_long { TakesText result (S.left source.old) (S.left source.new) }
    ensures unwritten { UnlessWritten result (sink.new ≡ sink.old) }
    ensures cut_short { IfCount (request_of (map string_bytes words.now)) (λ range. result ≡ Status.WriteFault →
        IsCutShort range (S.left source.old) (S.left source.new) (K.written sink.old) (K.written sink.new)) }

    ensures others { UnlessCount (request_of (map string_bytes words.now)) ((result ≡ Status.Words)
        × (source.new ≡ source.old)) }
{
    match request_of(words) {
        Some(Request::Count(range)) => count_source(rt, alloc, range, source, sink),
        _ => Status::Words,
    }
}
