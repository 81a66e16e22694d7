//! Reading a list of edges, line by line.

ghost use Rattle.std.specs.Prelude.{◌≡◌, ◌≢◌, ℕ, ◌≤◌, ◌<◌, [], ◌∷◌, ◌++◌, length, decimal, IfOk, IfErr, IfSome, IfNone};
ghost use Rattle.std.specs.Str.Lines.{lines, strip_carriage_return};
ghost use Rattle.drg_edges.specs.Faults.{HasBadHead, IsGraphFault};
ghost use Rattle.drg_edges.specs.Reading.{HasNone};
ghost use Rattle.drg_edges.specs.Text.{IsCount, IsGraphText, IsPair, head_line, pair_line};

use crate::{Graph, GraphFault};
use std::alloc::Global;

/// The greatest number of vertices.
const MOST_VERTICES: u16 = 2000;

/// Reads the text of a graph. A fault names the first line that isn't as it should be.
pub fn read_graph(alloc: Global, bytes: &[u8]) -> Result<Graph, GraphFault>
    ensures graph { IfOk result (IsGraphText bytes.now) }
    ensures fault { IfErr result (IsGraphFault bytes.now) }
{
    let Some((count, mut rest)) = read_head(bytes) else {
        return Err(GraphFault::Bad { line: 1 });
    };
    let mut pairs = Vec::new(alloc);
    let mut line = 2;
    'lines: while let Some((text, more)) = next_line(rest) {
        let Some(pair) = read_pair(text, count) else {
            return Err(GraphFault::Bad { line });
        };
        pairs.push(pair)?;
        line += 1;
        rest = more;
    }
    Ok(Graph::of_pairs(count, pairs))
}

/// The number of vertices that the first line tells, and the lines after it.
fn read_head(bytes: &[u8]) -> Option<(u16, &[u8])>
    ensures count { IfSome result (λ x. IsCount x.0) }
    ensures whole { IfSome result (λ x. lines bytes.now ≡ head_line x.0 ∷ lines x.1.now) }
    ensures shorter { IfSome result (λ x. length x.1.now < length bytes.now) }
    ensures none { IfNone result (HasBadHead bytes.now) }
{
    let (line, rest) = next_line(bytes)?;
    let count = read_number(line.strip_prefix(b"graph ")?, MOST_VERTICES)?;
    if count == 0 {
        None
    } else {
        Some((count, rest))
    }
}

/// The first line, without its end, and what follows it. There is none only in an empty text.
fn next_line(bytes: &[u8]) -> Option<(&[u8], &[u8])>
    ensures whole { IfSome result (λ x. lines bytes.now ≡ x.0.now ∷ lines x.1.now) }
    ensures shorter { IfSome result (λ x. length x.1.now < length bytes.now) }
    ensures none { IfNone result (bytes.now ≡ []) }
{
    if bytes.is_empty() {
        return None;
    }
    match split(bytes, b'\n') {
        Some((line, rest)) => Some((without_return(line), rest)),
        None => Some((bytes, &bytes[bytes.len()..])),
    }
}

/// The bytes before the first one that is this byte, and those after it.
fn split(bytes: &[u8], byte: u8) -> Option<(&[u8], &[u8])>
    ensures whole { IfSome result (λ x. bytes.now ≡ x.0.now ++ byte ∷ x.1.now) }
    ensures before { IfSome result (λ x. HasNone byte x.0.now) }
    ensures none { IfNone result (HasNone byte bytes.now) }
{
    let len = bytes.iter().position(|other| *other == byte)?;
    Some((&bytes[..len], &bytes[len + 1..]))
}

/// The line without a carriage return at its end.
fn without_return(line: &[u8]) -> &[u8]
    ensures { result.now ≡ strip_carriage_return line.now }
{
    match line.split_last() {
        Some((last, rest)) if *last == b'\r' => rest,
        _ => line,
    }
}

/// The pair of vertices that the line tells.
fn read_pair(line: &[u8], count: u16) -> Option<(u16, u16)>
    requires { IsCount count }
    ensures pair { IfSome result (IsPair count) }
    ensures whole { IfSome result (λ p. line.now ≡ pair_line p) }
    ensures none { IfNone result ((p : ℕ × ℕ) → IsPair count p → line.now ≢ pair_line p) }
{
    let (x, y) = split(line, b' ')?;
    let x = read_number(x, count - 1)?;
    let y = read_number(y, count - 1)?;
    if x == y { None } else { Some((x, y)) }
}

/// The number that the text is, where it is one of at most `most`.
fn read_number(text: &[u8], most: u16) -> Option<u16>
    ensures small { IfSome result (λ n. n ≤ most) }
    ensures whole { IfSome result (λ n. text.now ≡ decimal n) }
    ensures none { IfNone result ((n : ℕ) → n ≤ most → text.now ≢ decimal n) }
{
    let number = parse_number(text)?;
    if number <= most { Some(number) } else { None }
}

/// The number that the text is, without a sign and without zeros in front.
fn parse_number(text: &[u8]) -> Option<u16>
    ensures whole { IfSome result (λ n. text.now ≡ decimal n) }
    ensures none { IfNone result ((n : ℕ) → n < 65536 → text.now ≢ decimal n) }
{
    let (first, rest) = text.split_first()?;
    if *first == b'+' || *first == b'0' && !rest.is_empty() {
        return None;
    }
    let Ok(text) = str::from_utf8(text) else {
        return None;
    };
    text.parse::<u16>().ok()
}
