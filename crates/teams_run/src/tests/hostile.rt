//! Models that are meant to do harm: unfolded they would be far larger than their texts, or they are at a limit and one
//! past it, or their text breaks off. Each is answered or refused, and what is refused names the first limit that is
//! passed. The texts are built of parts that repeat, since a short rule says more of them than their bytes.
use crate::texts::BOX;
use crate::{Status, run_quiet};
use sig_edge::{MemShelf, MemSink};
use sig_types::Text;
use std::alloc::{AllocError, Global};
use std::test::Fail;
use teams_words::{Action, Plan};

/// How `matrix` ends on a text, and what it writes.
fn matrix_of(alloc: Global, text: &[u8]) -> Result<(Status, Vec<u8>), AllocError> {
    let mut shelf = MemShelf::new(alloc, Vec::new(alloc));
    shelf.add("m.toml", text)?;
    let mut sink = MemSink::new(alloc, 1_048_576, 1_048_576, Vec::new(alloc))?;
    let plan = Plan {
        action: Action::Matrix,
        model: Text::of(alloc, "m.toml")?,
        cert: None,
        workers: 0,
        groups: 4000,
        mode: None,
        log: None,
    };
    let status = run_quiet(alloc, &plan, &mut shelf, &mut sink);
    let wrote = Vec::from_slice(alloc, sink.wrote())?;
    Ok((status, wrote))
}

/// So many pieces in a row, each with its number between two texts.
fn numbered(alloc: Global, count: u64, before: &str, after: &str) -> Result<String, AllocError> {
    let mut text = String::new(alloc);
    for piece in 0..count {
        text.push_str(format!(in alloc; "{before}{piece}{after}")?.as_str())?;
    }
    Ok(text)
}

/// Blocks in a row, of which each has so many uses of the one before. The first holds what the text says.
fn stacked(alloc: Global, blocks: u64, uses: u64, first: &str) -> Result<String, AllocError> {
    let last = blocks.saturating_sub(1);
    let mut text = format!(in alloc;
        "version = 1\ngood = 1\ntop = \"b{last}\"\nsignals = [\"s\"]\n[[block]]\nname = \"b0\"\n{first}"
    )?;
    for block in 0..last {
        let next = block + 1;
        text.push_str(format!(in alloc; "[[block]]\nname = \"b{next}\"\n")?.as_str())?;
        let after = format!(in alloc; "\"\nblock = \"b{block}\"\n")?;
        let used = numbered(alloc, uses, "[[block.use]]\nname = \"u", after.as_str())?;
        text.push_str(used.as_str())?;
    }
    Ok(text)
}

/// So many parts.
fn parts(alloc: Global, count: u64) -> Result<String, AllocError> {
    numbered(alloc, count, "[[block.part]]\nname = \"p", "\"\n")
}

/// One part, and so many links from it to itself.
fn own_links(alloc: Global, count: u64) -> Result<String, AllocError> {
    let before = "[[block.link]] # ";
    let links = numbered(alloc, count, before, "\nfrom = \"p\"\nto = \"p\"\n")?;
    let links = links.as_str();
    format!(in alloc; "[[block.part]]\nname = \"p\"\n{links}")
}

/// A model of so many parts, each with a functional and a general fault.
fn faulty_parts(alloc: Global, count: u64) -> Result<String, AllocError> {
    let after = "\"\nfunctional = 1\nsignals = [\"s\"]\ngeneral = 1\n";
    let parts = numbered(alloc, count, "[[block.part]]\nname = \"p", after)?;
    stacked(alloc, 1, 0, parts.as_str())
}

/// A model of one point with so many tests.
fn tests_at_a_point(alloc: Global, count: u64) -> Result<String, AllocError> {
    let before = "[[block.point.test]]\nname = \"t";
    let tests = numbered(alloc, count, before, "\"\ncost = 1\nsignals = [\"s\"]\n")?;
    let tests = tests.as_str();
    let point = format!(in alloc; "[[block.point]]\nname = \"x\"\n{tests}")?;
    stacked(alloc, 1, 0, point.as_str())
}

/// A model of so many signals, and nothing else.
fn signals(alloc: Global, count: u64) -> Result<String, AllocError> {
    let names = numbered(alloc, count, "\"s", "\", ")?;
    let names = names.as_str();
    format!(in alloc;
        "version = 1\ngood = 1\ntop = \"b\"\nsignals = [{names}]\n[[block]]\nname = \"b\"\n"
    )
}

/// The text of the first block is short, and what it unfolds to is at a limit, past it, or more than a word can count.
#[test]
fn blocks_used_again(rt: HostRuntime) -> Result<(), Fail> {
    let alloc = rt.alloc();
    let (parts, links) = (parts(alloc, 64)?, own_links(alloc, 512)?);
    for (blocks, uses, first, number, line) in [
        (17, 1, "", 0, "teams matrix 1\n"),
        (18, 1, "", 1, "refused M13 at depth\n"),
        (12, 2, "", 0, "teams matrix 1\n"),
        (13, 2, "", 1, "refused M13 at uses\n"),
        (17, 1000, "", 1, "refused M13 at uses\n"),
        (2, 64, parts.as_str(), 0, "teams matrix 1\n"),
        (2, 65, parts.as_str(), 1, "refused M13 at nodes\n"),
        (2, 64, links.as_str(), 0, "teams matrix 1\n"),
        (2, 65, links.as_str(), 1, "refused M13 at links\n"),
    ] {
        let text = stacked(alloc, blocks, uses, first)?;
        let (status, wrote) = matrix_of(alloc, text.as_str().as_bytes())?;
        assert_eq!(rt; status.number(), number, "{blocks} blocks, {uses} uses");
        assert!(rt;
            wrote.as_slice().starts_with(line.as_bytes()),
            "{blocks} blocks, {uses} uses"
        );
    }
    Ok(())
}

#[test]
fn large_blocks(rt: HostRuntime) -> Result<(), Fail> {
    let alloc = rt.alloc();
    for (text, number, line) in [
        (faulty_parts(alloc, 2048)?, 0, "teams matrix 1\n"),
        (faulty_parts(alloc, 2049)?, 1, "refused M13 at faults\n"),
        (tests_at_a_point(alloc, 256)?, 0, "teams matrix 1\n"),
        (tests_at_a_point(alloc, 257)?, 1, "refused M13 at tests\n"),
        (signals(alloc, 64)?, 0, "teams matrix 1\n"),
        (signals(alloc, 65)?, 1, "refused M13 at signals\n"),
    ] {
        let (status, wrote) = matrix_of(alloc, text.as_str().as_bytes())?;
        assert!(rt; wrote.as_slice().starts_with(line.as_bytes()), "no {line}");
        assert_eq!(rt; status.number(), number, "{line}");
    }
    Ok(())
}

/// A text that breaks off is refused, or what is left of it is a model.
#[test]
fn texts_cut_off(rt: HostRuntime) -> Result<(), Fail> {
    let alloc = rt.alloc();
    for end in 1..BOX.len() {
        let (status, wrote) = matrix_of(alloc, &BOX.as_bytes()[..end])?;
        assert!(rt; status.number() <= 1, "cut after {end} bytes");
        let line = if status.number() == 0 {
            "teams matrix 1\n"
        } else {
            "refused M"
        };
        assert!(rt;
            wrote.as_slice().starts_with(line.as_bytes()),
            "cut after {end} bytes"
        );
    }
    Ok(())
}
