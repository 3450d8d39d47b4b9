//! Dot segments of a path, removed by rewriting its text (RFC 3986, section 5.2.4).
ghost use Rattle.std.specs.Prelude.{◌≡◌, ◌≢◌, ◌<◌, ◌≤◌, ◌++◌, [], length, IfOk, OnOk};
ghost use Rattle.rdf_terms.specs.Rewriting.{first_len, without_last, step_input, step_output, written, GoesOnBehind};
ghost use Rattle.rdf_terms.specs.Dots.{without_dots};

use crate::cuts::{cut, slash_end};
use crate::fault::NoMemory;
use std::alloc::Global;

/// What a path is rewritten to: how much of the text before it is kept, and what comes behind that.
#[derive(Drop)]
pub struct Output {
    pub kept: usize,
    pub added: Vec<u8>,
}

/// The path without its dot segments.
///
/// # Errors
/// [`NoMemory`] where memory is wanting.
pub fn without_dots(alloc: Global, path: &[u8]) -> Result<Vec<u8>, NoMemory>
    ensures { IfOk result (λ v. v.items ≡ without_dots path.now) }
{
    Ok(rewritten(alloc, b"", path)?.added)
}

/// A front and the path behind it, without their dot segments. What the front has of its own is not
/// copied.
///
/// # Errors
/// [`NoMemory`] where memory is wanting.
pub fn rewritten(alloc: Global, front: &[u8], path: &[u8]) -> Result<Output, NoMemory>
    requires { GoesOnBehind front.now path.now }
    ensures value { let whole = front.now ++ path.now in
        IfOk result (λ output. written front.now output ≡ without_dots whole) }
    ensures kept { IfOk result (λ output. output.kept ≤ length front.now) }
{
    let mut output = Output {
        kept: front.len(),
        added: Vec::new(alloc),
    };
    let mut input = path;
    while !input.is_empty() {
        input = step(front, input, &mut output)?;
    }
    Ok(output)
}

// One step of the rewriting, and what it leaves of the input.
#[tactic(auto, unfolding(crate::specs::Rewriting::step_input, crate::specs::Rewriting::step_output))]
fn step<'a>(front: &[u8], input: &'a [u8], output: &mut Output) -> Result<&'a [u8], NoMemory>
    requires some { input.now ≢ [] }
    requires kept { output.old.kept ≤ length front.now }
    ensures input { IfOk result (λ rest. rest.now ≡ step_input input.now) }
    ensures output { let before = written front.now output.old in
        OnOk result (written front.now output.new ≡ step_output input.now before) }
    ensures kept { output.new.kept ≤ length front.now }
{
    if input.starts_with(b"../") {
        return Ok(&input[3..]);
    }
    if input.starts_with(b"./") || input.starts_with(b"/./") {
        return Ok(&input[2..]);
    }
    if input == b"/.".as_slice() {
        return Ok(&input[..1]);
    }
    if input.starts_with(b"/../") {
        drop_last(front, output);
        return Ok(&input[3..]);
    }
    if input == b"/..".as_slice() {
        drop_last(front, output);
        return Ok(&input[..1]);
    }
    if input == b".".as_slice() || input == b"..".as_slice() {
        return Ok(&input[..0]);
    }
    let (segment, rest) = input.split_at(first_len(input));
    output.added.extend_from_slice(segment)?;
    Ok(rest)
}

// The length of the first segment with the slash before it.
fn first_len(input: &[u8]) -> usize
    requires { input.now ≢ [] }
    ensures len { result ≡ first_len input.now }
    ensures within { result ≤ length input.now }
{
    let (segment, _) = cut(&input[1..], b'/');
    segment.len() + 1
}

// Drops the last segment and the slash before it: of what was added, or else of the front.
fn drop_last(front: &[u8], output: &mut Output)
    requires { output.old.kept ≤ length front.now }
    ensures value { written front.now output.new ≡ without_last (written front.now output.old) }
    ensures kept { output.new.kept ≤ length front.now }
{
    let end = slash_end(&output.added);
    if end > 0 {
        output.added.truncate(end - 1);
        return;
    }
    output.added.clear();
    output.kept = slash_end(&front[..output.kept]).saturating_sub(1);
}
