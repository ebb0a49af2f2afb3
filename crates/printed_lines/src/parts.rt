// The texts that lines are made of.
ghost use Rattle.std.specs.Prelude.{◌≡◌, ◌<◌, length, IfOk, string_bytes};
ghost use Rattle.printed_lines.specs.Lines.{EndsOf, way_text, ending_text, deed_text, name_at, untold_word};

use crate::line::{Deed, Ending, WhyUntold};
use leaf_model::Names;
use leaf_words::{Way, WhyDisk};
use std::alloc::{AllocError, Global};

pub fn ending_string(alloc: Global, names: &Names, ending: &Ending) -> Result<String, AllocError>
    requires { EndsOf names.now ending.now }
    ensures { IfOk result (λ text. string_bytes text ≡ ending_text names.now ending.now) }
{
    match ending {
        Ending::Done => String::from_str(alloc, "done"),
        Ending::Stopped => String::from_str(alloc, "stopped"),
        Ending::NotUp => String::from_str(alloc, "not up"),
        Ending::NotDown => String::from_str(alloc, "not down"),
        Ending::Worn => String::from_str(alloc, "worn"),
        Ending::Started(way) => way_string(alloc, *way),
        Ending::FaultRegion => String::from_str(alloc, "fault region"),
        Ending::FaultRoom => String::from_str(alloc, "fault room"),
        Ending::FaultDisk => String::from_str(alloc, "fault disk"),
        Ending::FaultDamaged => String::from_str(alloc, "fault damaged"),
        Ending::FaultMemory => String::from_str(alloc, "fault memory"),
        Ending::FaultStranger(table) => {
            let name = table.as_str();
            format!(in alloc; "fault stranger {name}")
        }
        Ending::FaultWorn(table) => {
            let name = name_of(names, *table);
            format!(in alloc; "fault worn {name}")
        }
    }
}

fn way_string(alloc: Global, way: Way) -> Result<String, AllocError>
    ensures { IfOk result (λ text. string_bytes text ≡ way_text way) }
{
    match way {
        Way::Memory => String::from_str(alloc, "memory"),
        Way::Disk(why) => match why {
            WhyDisk::NoHead => String::from_str(alloc, "disk nohead"),
            WhyDisk::Closed(flag) => format!(in alloc; "disk closed {flag}"),
            WhyDisk::OtherVersion(version) => format!(in alloc; "disk version {version}"),
            WhyDisk::NoImage => String::from_str(alloc, "disk noimage"),
        },
    }
}

pub fn deed_str(deed: Deed) -> &'static str
    ensures { result.now ≡ deed_text deed }
{
    match deed {
        Deed::Start => "start",
        Deed::Flush(_) => "flush",
        Deed::Drain(_) => "drain",
        Deed::Kill => "kill",
    }
}

pub fn untold_str(why: WhyUntold) -> &'static str
    ensures { result.now ≡ untold_word why }
{
    match why {
        WhyUntold::Shut => "shut",
        WhyUntold::Worn => "worn",
        WhyUntold::Memory => "memory",
    }
}

/// The name of the table at this place.
pub fn name_of(names: &Names, table: u32) -> &str
    requires { table < length names.now }
    ensures { result.now ≡ name_at names.now table }
{
    names.as_slice()[table as usize].as_str()
}
