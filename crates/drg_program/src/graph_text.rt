//! The line that is written for the answer on a graph.

ghost use Rattle.std.specs.Prelude.{◌≡◌, ◌++◌, IfOk};
ghost use Rattle.drg_program.specs.GraphText.{array_words as the_array_words, count_word as the_count_word, graph_line as the_graph_line, graph_words as the_graph_words, numbers_text};

use drg_array::Array;
use drg_edges::GraphAnswer;
use itoa::Buffer;
use std::alloc::{AllocError, Global};

/// The line of an answer. The one error is want of memory.
pub fn graph_line(alloc: Global, answer: &GraphAnswer) -> Result<Vec<u8>, AllocError>
    ensures { IfOk result (λ line. line.items ≡ the_graph_line answer.now) }
{
    let mut line = graph_words(alloc, answer)?;
    line.push(b'\n')?;
    Ok(line)
}

/// The words of an answer.
fn graph_words(alloc: Global, answer: &GraphAnswer) -> Result<Vec<u8>, AllocError>
    ensures { IfOk result (λ words. words.items ≡ the_graph_words answer.now) }
{
    match answer {
        GraphAnswer::Array(array) => array_words(alloc, array),
        GraphAnswer::Single => b"single".to_vec(alloc),
        GraphAnswer::Apart { x, y } => words_of(alloc, b"apart", &[*x, *y]),
        GraphAnswer::Differ {
            x,
            y,
            x2,
            y2,
            distance,
            up,
            first,
            second,
        } => {
            let mut words = words_of(alloc, b"differ", &[*x, *y, *x2, *y2, *distance])?;
            let counts = words_of(alloc, count_word(*up), &[*first, *second])?;
            words.extend_from_slice(&counts)?;
            Ok(words)
        }
        GraphAnswer::Far { x, y } => words_of(alloc, b"far", &[*x, *y]),
    }
}

/// The words of an array.
fn array_words(alloc: Global, array: &Array) -> Result<Vec<u8>, AllocError>
    ensures { IfOk result (λ words. words.items ≡ the_array_words array.now) }
{
    let mut words = b"array ".to_vec(alloc)?;
    array.write_text(&mut words)?;
    Ok(words)
}

/// The word for the counts that differ, with one space before it.
fn count_word(up: bool) -> &'static [u8]
    ensures { result.now ≡ the_count_word up }
{
    if up { b" up" } else { b" down" }
}

/// The word, and the numbers with one space before each.
fn words_of(alloc: Global, word: &[u8], numbers: &[u32]) -> Result<Vec<u8>, AllocError>
    ensures { IfOk result (λ words. words.items ≡ word.now ++ numbers_text numbers.now) }
{
    let mut words = word.to_vec(alloc)?;
    let mut buffer = Buffer::new();
    'numbers: for number in numbers {
        words.push(b' ')?;
        words.extend_from_slice(buffer.format(*number).as_bytes())?;
    }
    Ok(words)
}
