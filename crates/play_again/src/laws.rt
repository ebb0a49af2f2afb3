// A law of what is known of berths.
ghost use Rattle.std.specs.Prelude.{ℕ, Option};
ghost use Rattle.transcript.specs.Transcript.{Known};
ghost use Rattle.transcript.specs.Leaving.{AreKnown};
ghost use Rattle.play.specs.Played.{AreBases};

use berth_face::Berth;
use play::Bases;

/// No-op; states that a clause over all known bases is never empty: if the berths have the named bases, something may
/// be known of them, whatever they become.
pub fn something_is_known<N: Bases, B: Berth>(_olds: &Vec<B>, _news: &Vec<B>)
    requires { AreBases N.base B.meaning _olds.now.items }
    ensures { (known : ℕ → Option Known) × AreKnown B.meaning _olds.now.items _news.now.items N.base known }
{}
