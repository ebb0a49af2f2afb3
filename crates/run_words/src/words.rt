// The words of the command line.
ghost use Rattle.std.specs.Prelude.{◌≡◌, None, IfSome, bytes_eq, codes, if◌then◌else◌, map, string_bytes};
ghost use Rattle.std.specs.Char.{is_ascii_digit};
ghost use Rattle.std.specs.List.{list_all};
ghost use Rattle.text_lines.specs.Numbers.{count_of, is_number, time_of_word};
ghost use Rattle.run_words.specs.Words.{IsInRange, counts_of, inspects_of, request_of, soaks_of};

use row_count::Range;

/// The fewest rows of a soak: one for each of its leaves.
const FEWEST_ROWS: u64 = 8;

/// The most rows of a soak.
const MOST_ROWS: u64 = 800_000;

/// The last leaf that has a berth.
const LAST_LEAF: u64 = 255;

/// What the words ask for.
#[derive(Clone, Copy)]
pub enum Request {
    /// Count the rows of the source whose time is in the range.
    Count(Range),
    /// Play the source as a script.
    Play,
    /// Play the script of a soak, which these two numbers decide. It has 8 to 800,000 rows.
    Soak { seed: u64, rows: u32 },
    /// Tell what the region of this leaf's berth holds. The leaf is one of 256.
    Inspect { leaf: u32 },
}

/// Parses the words `count FROM TO`, `play`, `soak SEED ROWS` or `inspect L`. None for any other words.
pub fn request_of(words: &[String]) -> Option<Request>
    ensures is { result ≡ request_of (map string_bytes words.now) }
    ensures in_range { IfSome result IsInRange }
{
    match words {
        [command] => {
            if command.as_str() == "play" {
                Some(Request::Play)
            } else {
                None
            }
        }
        [command, first] => with_one(command.as_str(), first.as_str()),
        [command, first, second] => with_two(command.as_str(), first.as_str(), second.as_str()),
        _ => None,
    }
}

/// The request of a command with one word after it.
fn with_one(command: &str, first: &str) -> Option<Request>
    ensures is { result ≡ (if bytes_eq command.now (codes "inspect") then inspects_of first.now else None) }
    ensures in_range { IfSome result IsInRange }
{
    if command == "inspect" {
        inspects_of(first)
    } else {
        None
    }
}

/// The request of a command with two words after it.
fn with_two(command: &str, first: &str, second: &str) -> Option<Request>
    ensures is { result ≡ (if bytes_eq command.now (codes "count") then counts_of first.now second.now
        else (if bytes_eq command.now (codes "soak") then soaks_of first.now second.now else None)) }
    ensures in_range { IfSome result IsInRange }
{
    if command == "count" {
        counts_of(first, second)
    } else if command == "soak" {
        soaks_of(first, second)
    } else {
        None
    }
}

/// The range of `count FROM TO`.
fn counts_of(from: &str, to: &str) -> Option<Request>
    ensures is { result ≡ counts_of from.now to.now }
    ensures in_range { IfSome result IsInRange }
{
    let from = time_of(from)?;
    let to = time_of(to)?;
    Some(Request::Count(Range { from, to }))
}

/// The numbers of `soak SEED ROWS`.
fn soaks_of(seed: &str, rows: &str) -> Option<Request>
    ensures is { result ≡ soaks_of seed.now rows.now }
    ensures in_range { IfSome result IsInRange }
{
    let seed = count_of(seed)?;
    let rows = count_of(rows)?;
    if FEWEST_ROWS <= rows && rows <= MOST_ROWS {
        Some(Request::Soak {
            seed,
            rows: rows as u32,
        })
    } else {
        None
    }
}

/// The leaf of `inspect L`.
fn inspects_of(leaf: &str) -> Option<Request>
    ensures is { result ≡ inspects_of leaf.now }
    ensures in_range { IfSome result IsInRange }
{
    let leaf = count_of(leaf)?;
    if leaf <= LAST_LEAF {
        Some(Request::Inspect { leaf: leaf as u32 })
    } else {
        None
    }
}

/// The time that a word of 1 to 20 digits gives.
fn time_of(word: &str) -> Option<i64>
    ensures { result ≡ time_of_word word.now }
{
    if !is_number(word) {
        return None;
    }
    word.parse::<i64>().ok()
}

/// The count that a word of 1 to 20 digits gives. None if 64 bits do not hold it.
fn count_of(word: &str) -> Option<u64>
    ensures { result ≡ count_of word.now }
{
    if !is_number(word) {
        return None;
    }
    word.parse::<u64>().ok()
}

/// Whether a word is 1 to 20 digits.
fn is_number(word: &str) -> bool
    ensures { result ≡ is_number word.now }
{
    !word.is_empty() && word.len() <= 20 && has_digits_alone(word)
}

fn has_digits_alone(word: &str) -> bool
    ensures { result ≡ list_all is_ascii_digit word.now }
{
    word.bytes().all(|byte| byte.is_ascii_digit())
}
