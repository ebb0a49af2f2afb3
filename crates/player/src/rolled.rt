// The lines of a rollover beside those of its deeds.
ghost use Rattle.std.specs.Prelude.{◌≡◌, ◌<◌, ◌^◌, ◌++◌, length, map, IfOk, OnOk};
ghost use Rattle.printed_lines.specs.declared.line.Line.TheVariants as line;
ghost use Rattle.transcript.specs.Watching.{watch_line};
ghost use Rattle.player.specs.Rolled.{AreFollowed, end_lines, watch_lines, wave_lines};

use printed_lines::Line;
use rollover_driver::Rolled;
use rollover_plan::{Wave, Waves};
use rollover_watch::Watch;
use std::alloc::{AllocError, Global};

/// The line of each wave.
pub fn wave_lines(alloc: Global, plan: &Waves) -> Result<Vec<Line>, AllocError>
    requires few { length plan.now < 2 ^ 32 }
    ensures { IfOk result (λ lines. lines.items ≡ wave_lines 1 (length plan.now) plan.now) }
{
    let waves = plan.as_slice();
    let of = waves.len() as u32;
    let mut lines = Vec::new(alloc);
    for begun in 0..of {
        let wave = waves[begun as usize].as_slice();
        lines.push(Line::Wave {
            number: begun + 1,
            of,
            leaves: Wave::of(wave.to_vec(alloc)?),
        })?;
    }
    Ok(lines)
}

/// The lines of the deeds, then how the rollover ended, and the line of each watch. Err if the lines are.
pub fn ended(
    lines: Result<Vec<Line>, AllocError>,
    rolled: Rolled,
    plan: &Waves,
    watches: &[Box<dyn Watch>],
) -> Result<Vec<Line>, AllocError>
    requires few { length plan.now < 2 ^ 32 }
    ensures { IfOk result (λ all. AreFollowed lines (end_lines rolled (length plan.now)
        (map (λ watch. held watch) watches.now)) all.items) }
{
    let mut lines = lines?;
    lines.push(Line::Rolled {
        halted: rolled.halted,
        waves: rolled.waves,
        of: plan.as_slice().len() as u32,
    })?;
    put_watches(&mut lines, watches)?;
    Ok(lines)
}

// Appends the lines of the watches.
fn put_watches(lines: &mut Vec<Line>, watches: &[Box<dyn Watch>]) -> Result<(), AllocError>
    ensures { OnOk result (lines.new.items ≡ lines.old.items ++ watch_lines (map (λ watch. held watch) watches.now)) }
{
    for watch in watches {
        lines.push(line_of(watch))?;
    }
    Ok(())
}

// The line of a watch.
fn line_of(watch: &Box<dyn Watch>) -> Line
    ensures { result ≡ line.Watch (watch_line (held watch.now)) }
{
    let mut text = rollover_watch::Line::new();
    watch.line(&mut text);
    Line::Watch(text)
}
