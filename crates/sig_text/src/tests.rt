//! Whole texts, read and refused.

use super::read_model;
use sig_types::{Block, Code, Key, Kind, Model, ModelFault, Place};
use std::alloc::{AllocError, Global};
use std::test::Fail;

const BOX: &str = "version = 1
good = 6
top = \"box\"
signals = [\"s\"]

[[block]]
name = \"box\"
part = [
  {name = \"A\", functional = 3, signals = [\"s\"]},
  {name = \"B\", functional = 1, signals = [\"s\"]},
]
point = [
  {name = \"X\", test = [{name = \"tA\", cost = 2, signals = [\"s\"]}]},
  {name = \"Y\", test = [{name = \"tB\", cost = 1, signals = [\"s\"]}]},
]
link = [{from = \"A\", to = \"X\"}, {from = \"B\", to = \"Y\"}]
";

const RING: &str = "version = 1
good = 1
top = \"ring\"
signals = [\"s\"]

[[block]]
name = \"ring\"
part = [
  {name = \"A\", functional = 1, signals = [\"s\"]},
  {name = \"B\", functional = 1, signals = [\"s\"]},
]
point = [{name = \"X\", test = [{name = \"t\", cost = 1, signals = [\"s\"]}]}]
link = [{from = \"A\", to = \"B\"}, {from = \"B\", to = \"A\"}, {from = \"B\", to = \"X\"}]
";

const LINE: &str = "version = 1
good = 1
top = \"line\"
signals = [\"s\"]

[[block]]
name = \"line\"
part = [
  {name = \"A\", functional = 2, signals = [\"s\"], general = 1},
  {name = \"P\", stops = [\"s\"]},
  {name = \"Q\"}, # second path
]
point = [{name = \"X\", test = [{name = \"t\", cost = 1, signals = [\"s\"]}]}]
link = [
  {from = \"A\", to = \"P\"}, {from = \"P\", to = \"X\"},
  {from = \"A\", to = \"Q\"}, {from = \"Q\", to = \"X\"}, # second path
]
";

const FEED: &str = "version = 1
good = 1
top = \"feed\"
signals = [\"s\"]
modes = [\"normal\", \"backup\"]

[[block]]
name = \"feed\"
switches = [\"W\"]
part = [
  {name = \"A\", functional = 1, signals = [\"s\"]},
  {name = \"B\", functional = 1, signals = [\"s\"]},
]
point = [{name = \"X\", test = [
  {name = \"tn\", cost = 1, signals = [\"s\"], mode = \"normal\"},
  {name = \"tb\", cost = 1, signals = [\"s\"], mode = \"backup\"},
]}]
link = [
  {from = \"A\", to = \"W\", modes = [\"normal\"]},
  {from = \"B\", to = \"W\", modes = [\"backup\"]},
  {from = \"W\", to = \"X\", modes = [\"normal\", \"backup\"]},
]
";

const RADIO: &str = "version = 1
good = 10
top = \"radio\"
signals = [\"gain\"]

[[block]]
name = \"stage\"
ports = [\"in\", \"out\"]
part = [{name = \"amp\", functional = 4, signals = [\"gain\"]}]
point = [{name = \"tp\", test = [{name = \"v\", cost = 2, signals = [\"gain\"]}]}]
link = [
  {from = \"in\", to = \"amp\"}, {from = \"amp\", to = \"out\"}, {from = \"amp\", to = \"tp\"},
]

[[block]]
name = \"radio\"
use = [
  {name = \"s1\", block = \"stage\"},
  {name = \"s2\", block = \"stage\"},
  {name = \"s3\", block = \"stage\"},
]
link = [{from = \"s1.out\", to = \"s2.in\"}, {from = \"s2.out\", to = \"s3.in\"}]
";

const STAR: &str = "version = 1
good = 1
top = \"star\"
signals = [\"s\"]

[[block]]
name = \"star\"
part = [
  {name = \"F1\", functional = 1, signals = [\"s\"]},
  {name = \"F2\", functional = 1, signals = [\"s\"]},
  {name = \"F3\", functional = 1, signals = [\"s\"]},
  {name = \"F4\", functional = 1, signals = [\"s\"]},
]
point = [
  {name = \"X1\", test = [{name = \"t\", cost = 1, signals = [\"s\"]}]},
  {name = \"X2\", test = [{name = \"t\", cost = 1, signals = [\"s\"]}]},
  {name = \"X3\", test = [{name = \"t\", cost = 1, signals = [\"s\"]}]},
  {name = \"X4\", test = [{name = \"t\", cost = 1, signals = [\"s\"]}]},
]
link = [
  {from = \"F1\", to = \"X1\"}, {from = \"F2\", to = \"X2\"},
  {from = \"F3\", to = \"X3\"}, {from = \"F4\", to = \"X4\"},
]
";

/// The numbers of ports, switches, parts, uses, points and links.
fn counts(block: &Block) -> [usize; 6] {
    [
        block.ports.len(),
        block.switches.len(),
        block.parts.len(),
        block.uses.len(),
        block.points.len(),
        block.links.len(),
    ]
}

fn last_block(model: &Model) -> Option<&Block> {
    model.blocks.as_slice().last()
}

#[test]
fn reads_models(rt: HostRuntime) -> Result<(), Fail> {
    for (text, top, good, of_last) in [
        (BOX, "box", 6, [0, 0, 2, 0, 2, 2]),
        (RING, "ring", 1, [0, 0, 2, 0, 1, 3]),
        (LINE, "line", 1, [0, 0, 3, 0, 1, 4]),
        (FEED, "feed", 1, [0, 1, 2, 0, 1, 3]),
        (RADIO, "radio", 10, [0, 0, 0, 3, 0, 2]),
        (STAR, "star", 1, [0, 0, 4, 0, 4, 4]),
    ] {
        let model: Model = read_model(rt.alloc(), text.as_bytes())?;
        assert_eq!(rt; model.top.as_str(), top);
        assert_eq!(rt; model.good.get(), good);
        let block = last_block(&model).ok_or("no block")?;
        assert_eq!(rt; block.name.as_str(), top);
        assert_eq!(rt; counts(block), of_last);
    }
    Ok(())
}

#[test]
fn reads_each_key_of_parts_and_tests(rt: HostRuntime) -> Result<(), Fail> {
    let model: Model = read_model(rt.alloc(), LINE.as_bytes())?;
    let block = last_block(&model).ok_or("no block")?;
    let part = block.parts.as_slice().first().ok_or("no part")?;
    let fault = part.functional.as_ref().ok_or("no functional fault")?;
    assert_eq!(rt; fault.weight.get(), 2);
    assert_eq!(rt; fault.signals.len(), 1);
    assert_eq!(rt; part.general.ok_or("no general fault")?.get(), 1);
    assert_eq!(rt; part.stops.len(), 0);
    let last = block.parts.as_slice().last().ok_or("no part")?;
    assert!(rt; last.functional.is_none());
    Ok(())
}

#[test]
fn reads_modes_and_ends(rt: HostRuntime) -> Result<(), Fail> {
    let feed: Model = read_model(rt.alloc(), FEED.as_bytes())?;
    assert_eq!(rt; feed.modes.len(), 2);
    let block = last_block(&feed).ok_or("no block")?;
    let point = block.points.as_slice().first().ok_or("no point")?;
    let test = point.tests.as_slice().last().ok_or("no test")?;
    let mode = test.mode.ok_or("no mode")?;
    assert_eq!(rt; mode.as_str(), "backup");
    assert_eq!(rt; test.cost.get(), 1);
    let link = block.links.as_slice().last().ok_or("no link")?;
    assert_eq!(rt; link.modes.len(), 2);
    assert!(rt; link.to.second.is_none());
    let radio: Model = read_model(rt.alloc(), RADIO.as_bytes())?;
    let block = last_block(&radio).ok_or("no block")?;
    let used = block.uses.as_slice().last().ok_or("no use")?;
    assert_eq!(rt; used.block.as_str(), "stage");
    let link = block.links.as_slice().last().ok_or("no link")?;
    let port = link.to.second.ok_or("no port")?;
    assert_eq!(rt; link.to.first.as_str(), "s3");
    assert_eq!(rt; port.as_str(), "in");
    Ok(())
}

type Steps = (
    Option<u64>,
    Option<(Kind, u64)>,
    Option<u64>,
    Option<Key>,
    Option<u64>,
);

/// The code of a refusal, and its place's steps; the document has none.
fn told(alloc: Global, bytes: &[u8]) -> Option<(Code, Option<Steps>)> {
    match read_model(alloc, bytes) {
        Err(ModelFault::Refused(refusal)) => match refusal.place {
            Place::In {
                block,
                item,
                test,
                key,
                element,
            } => Some((refusal.code, Some((block, item, test, key, element)))),
            _ => Some((refusal.code, None)),
        },
        _ => None,
    }
}

#[test]
fn refuses_the_document_first(rt: HostRuntime) {
    let alloc = rt.alloc();
    let bytes = BOX.as_bytes();
    assert_eq!(rt; told(alloc, &bytes[..19]), Some((Code::M01, None)));
    assert_eq!(rt;
        told(alloc, b"version = 1 # \xff\n"),
        Some((Code::M01, None))
    );
    let strange = b"colour = 1\nversion = 1\ngood = -1\n";
    assert_eq!(rt; told(alloc, strange), Some((Code::M04, None)));
    for (text, code, key, element) in [
        (&BOX[..20], Code::M03, Key::Top, None),
        ("", Code::M03, Key::Version, None),
        ("version = 2\ncolour = 1", Code::M02, Key::Version, None),
        ("version = -1", Code::M02, Key::Version, None),
        ("version = 1.0\ncolour = 1", Code::M05, Key::Version, None),
        ("version = 1\ngood = 1000001", Code::M09, Key::Good, None),
        ("version = 1\ngood = -1", Code::M09, Key::Good, None),
        (
            "version = 1\ngood = true\ntop = 1",
            Code::M05,
            Key::Good,
            None,
        ),
        (
            "version = 1\ngood = 0\ntop = \"-a\"",
            Code::M06,
            Key::Top,
            None,
        ),
        (
            "version = 1\ngood = 0\ntop = \"a\"\nsignals = \"s\"",
            Code::M05,
            Key::Signals,
            None,
        ),
        (
            "version = 1\ngood = 0\ntop = \"a\"\nmodes = [\"m\", \"\", 7]",
            Code::M06,
            Key::Modes,
            Some(1),
        ),
        (
            "version = 1\ngood = 0\ntop = \"a\"",
            Code::M03,
            Key::Block,
            None,
        ),
        (
            "version = 1\ngood = 0\ntop = \"a\"\n[block]\nname = \"a\"",
            Code::M05,
            Key::Block,
            None,
        ),
        (
            "version = 1\ngood = 0\ntop = \"a\"\nblock = [{name = \"a\"}, 7]",
            Code::M05,
            Key::Block,
            Some(1),
        ),
    ] {
        let found = told(alloc, text.as_bytes());
        assert_eq!(rt;
            found,
            Some((code, Some((None, None, None, Some(key), element)))),
            "at {text}"
        );
    }
}

/// A text of one block that has these lines beside its name.
fn with_lines(alloc: Global, lines: &str) -> Result<String, AllocError> {
    format!(in alloc;
        "version = 1\ngood = 6\ntop = \"box\"\nsignals = [\"s\"]\n[[block]]\nname = \"box\"\n{lines}"
    )
}

#[test]
fn refuses_a_part_by_its_first_breach(rt: HostRuntime) -> Result<(), Fail> {
    let alloc = rt.alloc();
    for (keys, code, key, element) in [
        (
            "functional = 1, signals = [\"s\"]",
            Code::M03,
            Some(Key::Name),
            None,
        ),
        ("name = 7, colour = 1", Code::M04, None, None),
        ("name = \"A\", colour = 1", Code::M04, None, None),
        ("name = \"A\", signals = [\"s\"]", Code::M04, None, None),
        (
            "name = \"a.b\", functional = 0",
            Code::M06,
            Some(Key::Name),
            None,
        ),
        (
            "name = \"A\", functional = 1000001, signals = [\"s\"]",
            Code::M09,
            Some(Key::Functional),
            None,
        ),
        (
            "name = \"A\", functional = 0",
            Code::M09,
            Some(Key::Functional),
            None,
        ),
        (
            "name = \"A\", functional = -1",
            Code::M09,
            Some(Key::Functional),
            None,
        ),
        (
            "name = \"A\", functional = 9223372036854775807",
            Code::M09,
            Some(Key::Functional),
            None,
        ),
        (
            "name = \"A\", functional = 2026-01-01",
            Code::M05,
            Some(Key::Functional),
            None,
        ),
        (
            "name = \"A\", functional = 1, general = 0",
            Code::M03,
            Some(Key::Signals),
            None,
        ),
        (
            "name = \"A\", general = 0, stops = 7",
            Code::M09,
            Some(Key::General),
            None,
        ),
        ("name = \"A\", stops = 7", Code::M05, Some(Key::Stops), None),
        (
            "name = \"A\", stops = [\"s\", 7]",
            Code::M05,
            Some(Key::Stops),
            Some(1),
        ),
        (
            "name = \"A\", stops = [\"s\", \"s t\"]",
            Code::M06,
            Some(Key::Stops),
            Some(1),
        ),
    ] {
        let lines = format!(in alloc; "part = [{{name = \"B\"}}, {{{keys}}}, 7]\nuse = 7\n")?;
        let text = with_lines(alloc, lines.as_str())?;
        let found = told(alloc, text.as_bytes());
        let at = (Some(0), Some((Kind::Part, 1)), None, key, element);
        assert_eq!(rt; found, Some((code, Some(at))), "at {keys}");
    }
    Ok(())
}

#[test]
fn refuses_each_kind_of_table(rt: HostRuntime) -> Result<(), Fail> {
    let alloc = rt.alloc();
    for (lines, code, item, test, key, element) in [
        ("colour = 7\nports = 7", Code::M04, None, None, None, None),
        (
            "ports = [\"in\", \"\"]",
            Code::M06,
            None,
            None,
            Some(Key::Ports),
            Some(1),
        ),
        (
            "switches = {}",
            Code::M05,
            None,
            None,
            Some(Key::Switches),
            None,
        ),
        (
            "part = [7]",
            Code::M05,
            None,
            None,
            Some(Key::Part),
            Some(0),
        ),
        (
            "use = [{name = \"a\"}]",
            Code::M03,
            Some((Kind::Use, 0)),
            None,
            Some(Key::Block),
            None,
        ),
        (
            "point = [{name = \"a\"}, {name = \"b\", test = 7}]",
            Code::M05,
            Some((Kind::Point, 1)),
            None,
            Some(Key::Test),
            None,
        ),
        (
            "point = [{name = \"a\", test = [{name = \"t\"}]}]",
            Code::M03,
            Some((Kind::Point, 0)),
            Some(0),
            Some(Key::Cost),
            None,
        ),
        (
            "point = [{name = \"a\", test = [{name = \"t\", cost = 1, signals = [], mode = \".\"}]}]",
            Code::M06,
            Some((Kind::Point, 0)),
            Some(0),
            Some(Key::Mode),
            None,
        ),
        (
            "link = [{from = \"a.b\", to = \"a\"}, {from = \"a\", to = \"a.b.c\"}]",
            Code::M06,
            Some((Kind::Link, 1)),
            None,
            Some(Key::To),
            None,
        ),
        (
            "link = [{from = \".a\"}]",
            Code::M06,
            Some((Kind::Link, 0)),
            None,
            Some(Key::From),
            None,
        ),
        (
            "link = [{from = \"a.\", modes = 7}]",
            Code::M06,
            Some((Kind::Link, 0)),
            None,
            Some(Key::From),
            None,
        ),
        (
            "link = [{from = \"a\", to = \"b\", modes = [7]}]",
            Code::M05,
            Some((Kind::Link, 0)),
            None,
            Some(Key::Modes),
            Some(0),
        ),
    ] {
        let text = with_lines(alloc, lines)?;
        let found = told(alloc, text.as_bytes());
        assert_eq!(rt;
            found,
            Some((code, Some((Some(0), item, test, key, element)))),
            "at {lines}"
        );
    }
    Ok(())
}

/// A block of so many parts, each with a name of so many bytes.
fn with_parts(alloc: Global, count: u32, bytes: u32) -> Result<String, AllocError> {
    let mut text = with_lines(alloc, "part = [\n")?;
    for _ in 0..count {
        text.push_str("{name = \"")?;
        for _ in 0..bytes {
            text.push('n')?;
        }
        text.push_str("\", functional = 1, signals = [\"s\"], stops = [\"s\"]},\n")?;
    }
    text.push_str("]\n")?;
    Ok(text)
}

#[test]
fn reads_many_parts_and_long_names(rt: HostRuntime) -> Result<(), Fail> {
    let alloc = rt.alloc();
    let text = with_parts(alloc, 10_000, 32)?;
    let model: Model = read_model(alloc, text.as_bytes())?;
    let block = last_block(&model).ok_or("no block")?;
    assert_eq!(rt; block.parts.len(), 10_000);
    let text = with_parts(alloc, 1, 33)?;
    let at = (Some(0), Some((Kind::Part, 0)), None, Some(Key::Name), None);
    assert_eq!(rt; told(alloc, text.as_bytes()), Some((Code::M06, Some(at))));
    Ok(())
}
