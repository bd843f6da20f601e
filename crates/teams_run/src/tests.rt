//! The program on worked texts, through the shelf and the sink in memory: printed bytes, each refusal, and the
//! statuses that go with them. Expected values come from outside the program.
use super::*;
use crate::limited::*;
use crate::texts::*;
use sig_edge::{FreeGate, MemShelf, MemSink};
use sig_types::Text;
use std::alloc::{AllocError, Global};
use std::str;
use std::sync::Wait;
use std::test::Fail;
use std::thread::Threads;
use teams_words::{Action, Plan};

mod faults;
mod hostile;
mod workers;

fn words_of(alloc: Global, texts: &[&str]) -> Result<Vec<String>, AllocError> {
    let mut words = Vec::new(alloc);
    for text in texts {
        words.push(String::from_str(alloc, text)?)?;
    }
    Ok(words)
}

/// How a command on the held text ends, and what it writes.
fn ran<R: Threads + Wait + Sync>(
    rt: &R,
    alloc: Global,
    words: &[&str],
    text: &[u8],
) -> Result<(Status, Vec<u8>), AllocError> {
    let mut shelf = MemShelf::new(alloc, Vec::new(alloc));
    shelf.add("m.toml", text)?;
    let mut sink = MemSink::new(alloc, 65_536, 65_536, Vec::new(alloc))?;
    let status = run(
        rt,
        alloc,
        words_of(alloc, words)?.as_slice(),
        &mut shelf,
        &mut sink,
        &FreeGate,
    );
    let wrote = Vec::from_slice(alloc, sink.wrote())?;
    Ok((status, wrote))
}

#[test]
fn reports(rt: HostRuntime) -> Result<(), Fail> {
    let alloc = rt.alloc();
    for (text, report) in [
        (BOX, BOX_REPORT),
        (CHAIN, CHAIN_REPORT),
        (UNTESTED, UNTESTED_REPORT),
        (UNSEEN, UNSEEN_REPORT),
        (ALONE, ALONE_REPORT),
        (RING, RING_REPORT),
        (RADIO, RADIO_REPORT),
    ] {
        let words = ["solve", "m.toml", "--workers=0"];
        let (status, wrote) = ran(&rt, alloc, &words, text.as_bytes())?;
        assert_eq!(rt; status.number(), 0);
        assert_eq!(rt; wrote.as_slice(), report.as_bytes());
    }
    Ok(())
}

#[test]
fn matrices_and_figures(rt: HostRuntime) -> Result<(), Fail> {
    let alloc = rt.alloc();
    for (action, text, printed) in [
        ("matrix", BOX, BOX_MATRIX),
        ("matrix", ONE_PATH, ONE_PATH_MATRIX),
        ("matrix", TWO_PATHS, TWO_PATHS_MATRIX),
        ("matrix", FEED, FEED_MATRIX),
        ("figures", RING, RING_FIGURES),
        ("figures", UNSEEN, UNSEEN_FIGURES),
        ("figures", TWINS, TWINS_FIGURES),
    ] {
        let (status, wrote) = ran(&rt, alloc, &[action, "m.toml"], text.as_bytes())?;
        assert_eq!(rt; status.number(), 0);
        assert_eq!(rt; wrote.as_slice(), printed.as_bytes());
    }
    let words = ["matrix", "m.toml", "--mode=backup"];
    let (status, wrote) = ran(&rt, alloc, &words, FEED.as_bytes())?;
    assert_eq!(rt; status.number(), 0);
    assert_eq!(rt; wrote.as_slice(), BACKUP_MATRIX.as_bytes());
    Ok(())
}

#[test]
fn refusals(rt: HostRuntime) -> Result<(), Fail> {
    let alloc = rt.alloc();
    for (text, line) in [
        ("version = 1\ngood = ", "refused M01 at document\n"),
        ("version = 1\ngood = 6", "refused M03 at top\n"),
        ("version = 2\n", "refused M02 at version\n"),
        (COLOURED, "refused M04 at block[0].part[0]\n"),
        (HEAVY, "refused M09 at block[0].part[0].functional\n"),
        (LATER_BLOCK, "refused M10 at block[0].use[0].block\n"),
        (OWN_BLOCK, "refused M10 at block[0].use[0].block\n"),
        (MODELESS, "refused M12 at block[0].link[0]\n"),
        (STATELESS, "refused M14 at states\n"),
    ] {
        let (status, wrote) = ran(&rt, alloc, &["solve", "m.toml"], text.as_bytes())?;
        assert_eq!(rt; wrote.as_slice(), line.as_bytes());
        assert_eq!(rt; status.number(), 1);
    }
    let words = ["matrix", "m.toml", "--mode=zzz"];
    let (status, wrote) = ran(&rt, alloc, &words, FEED.as_bytes())?;
    assert_eq!(rt; status.number(), 1);
    assert_eq!(rt; wrote.as_slice(), b"refused M15 at mode\n".as_slice());
    for end in 0..BOX.len() {
        let (status, _wrote) = ran(&rt, alloc, &["solve", "m.toml"], &BOX.as_bytes()[..end])?;
        assert!(rt; status.number() <= 1, "cut after {end} bytes");
    }
    Ok(())
}

/// How a command line, its words parted by single spaces, ends on the two-part box.
fn ended<R: Threads + Wait + Sync>(
    rt: &R,
    alloc: Global,
    line: &str,
) -> Result<Status, AllocError> {
    let mut words = Vec::new(alloc);
    for word in line.split(' ') {
        words.push(String::from_str(alloc, word)?)?;
    }
    let mut shelf = MemShelf::new(alloc, Vec::new(alloc));
    shelf.add("m.toml", BOX.as_bytes())?;
    let mut sink = MemSink::new(alloc, 4096, 4096, Vec::new(alloc))?;
    let status = run(
        rt,
        alloc,
        words.as_slice(),
        &mut shelf,
        &mut sink,
        &FreeGate,
    );
    Ok(status)
}

#[test]
fn commands(rt: HostRuntime) -> Result<(), Fail> {
    let alloc = rt.alloc();
    for line in [
        "solve m.toml --workers=0 --groups=00005 --mode=normal",
        "--mode normal solve --groups 5 m.toml",
        "matrix m.toml --mode=normal",
        "figures m.toml",
    ] {
        let status = ended(&rt, alloc, line)?;
        assert_eq!(rt; status.number(), 0);
    }
    for line in [
        "",
        "solve",
        "prove m.toml",
        "solve -m",
        "solve ",
        "solve m.toml x",
        "solve m.toml --mode=",
        "solve m.toml --workers=17",
        "solve m.toml --groups=0",
        "solve m.toml --groups=32769",
        "solve m.toml --groups=000005",
        "solve m.toml --groups=5 --groups=5",
        "solve m.toml --cert=c",
        "solve m.toml --mode=normal --mode normal",
        "matrix m.toml --workers=0",
        "check m.toml",
        "sample 0",
        "sample 3 --mode=normal",
    ] {
        let status = ended(&rt, alloc, line)?;
        assert_eq!(rt; status.number(), 2);
    }
    Ok(())
}

#[test]
fn lengths(rt: HostRuntime) -> Result<(), Fail> {
    let alloc = rt.alloc();
    let mut text = Vec::from_slice(alloc, BOX.as_bytes())?;
    for _ in BOX.len()..1_048_576 {
        text.push(b'\n')?;
    }
    let (status, wrote) = ran(&rt, alloc, &["solve", "m.toml"], text.as_slice())?;
    assert_eq!(rt; status.number(), 0);
    assert_eq!(rt; wrote.as_slice(), BOX_REPORT.as_bytes());
    text.push(b'\n')?;
    let (status, wrote) = ran(&rt, alloc, &["solve", "m.toml"], text.as_slice())?;
    assert_eq!(rt; status.number(), 9);
    assert_eq!(rt; wrote.len(), 0);
    Ok(())
}

/// A model of as many parts as wanted, each seen by the ten points that its number's bits name.
fn coded(alloc: Global, parts: u64) -> Result<String, AllocError> {
    let mut text = String::from_str(
        alloc,
        "version = 1\ngood = 1\ntop = \"b\"\nsignals = [\"s\"]\n[[block]]\nname = \"b\"\n",
    )?;
    for bit in 0..10u64 {
        let point = format!(in alloc;
            "[[block.point]]\nname = \"x{bit}\"\ntest = [{{name = \"t\", cost = 1, signals = [\"s\"]}}]\n"
        )?;
        text.push_str(point.as_str())?;
    }
    for part in 0..parts {
        let line = format!(in alloc;
            "[[block.part]]\nname = \"k{part}\"\nfunctional = 1\nsignals = [\"s\"]\n"
        )?;
        text.push_str(line.as_str())?;
    }
    for part in 0..parts {
        for bit in 0..10u64 {
            if part >> bit & 1 == 1 {
                let line = format!(in alloc;
                    "[[block.link]]\nfrom = \"k{part}\"\nto = \"x{bit}\"\n"
                )?;
                text.push_str(line.as_str())?;
            }
        }
    }
    Ok(text)
}

/// Past 512 ambiguity groups nothing is solved, and the matrix and the figures still come.
#[test]
fn many_groups(rt: HostRuntime) -> Result<(), Fail> {
    let alloc = rt.alloc();
    let text = coded(alloc, 513)?;
    let (status, wrote) = ran(&rt, alloc, &["solve", "m.toml"], text.as_str().as_bytes())?;
    assert_eq!(rt; status.number(), 1);
    assert_eq!(rt; wrote.as_slice(), b"refused M13 at classes\n".as_slice());
    for action in ["matrix", "figures"] {
        let (status, _wrote) = ran(&rt, alloc, &[action, "m.toml"], text.as_str().as_bytes())?;
        assert_eq!(rt; status.number(), 0);
    }
    let text = coded(alloc, 512)?;
    let (status, _wrote) = ran(&rt, alloc, &["solve", "m.toml"], text.as_str().as_bytes())?;
    assert_eq!(rt; status.number(), 0);
    Ok(())
}

/// Where the limit of groups is met, a right strategy with its gap comes. Lows and cost are those of the
/// set of entered groups, not the bounds that the walk had stored, so the strategy may be optimal still.
#[test]
fn limits(rt: HostRuntime) -> Result<(), Fail> {
    let alloc = rt.alloc();
    for (text, groups, number, report) in [
        (STAR, "--groups=5", 0, STAR_REPORT),
        (STAR, "--groups=4", 3, SHORT_STAR_REPORT),
        (HALVES, "--groups=2", 3, SHORT_HALVES_REPORT),
        (CROSSED, "--groups=8", 0, CROSSED_REPORT),
        (LAGGING, "--groups=7", 0, LAGGING_REPORT),
    ] {
        let (status, wrote) = ran(
            &rt,
            alloc,
            &["solve", "m.toml", "--workers=0", groups],
            text.as_bytes(),
        )?;
        assert_eq!(rt; status.number(), number);
        assert_eq!(rt; wrote.as_slice(), report.as_bytes());
    }
    Ok(())
}

/// How `reason` on the receiver ends over a log that is held, and what it writes.
fn reasoned<R: Threads + Wait + Sync>(
    rt: &R,
    alloc: Global,
    log: &[u8],
) -> Result<(Status, Vec<u8>), AllocError> {
    let mut shelf = MemShelf::new(alloc, Vec::new(alloc));
    shelf.add("m.toml", RADIO.as_bytes())?;
    shelf.add("l", log)?;
    let mut sink = MemSink::new(alloc, 4096, 4096, Vec::new(alloc))?;
    let words = words_of(alloc, &["reason", "m.toml", "--log=l"])?;
    let status = run(
        rt,
        alloc,
        words.as_slice(),
        &mut shelf,
        &mut sink,
        &FreeGate,
    );
    let wrote = Vec::from_slice(alloc, sink.wrote())?;
    Ok((status, wrote))
}

/// Several faults may be present at once.
#[test]
fn logs(rt: HostRuntime) -> Result<(), Fail> {
    let alloc = rt.alloc();
    for (log, number, text) in [
        (
            "pass s1/tp/v\nfail s3/tp/v\n",
            0,
            "teams reason 1\nmode -\nfaults 3\ngood s1/amp.f\nsuspect s2/amp.f\nsuspect s3/amp.f\nend\n",
        ),
        (
            "pass s1/tp/v\nfail s3/tp/v\nfail s2/tp/v\n",
            0,
            "teams reason 1\nmode -\nfaults 3\ngood s1/amp.f\nbad s2/amp.f\nunknown s3/amp.f\nend\n",
        ),
        ("fail s1/tp/v\npass s3/tp/v\n", 10, "conflict s1/tp/v\n"),
        (
            "",
            0,
            "teams reason 1\nmode -\nfaults 3\nunknown s1/amp.f\nunknown s2/amp.f\nunknown s3/amp.f\nend\n",
        ),
        ("fail s1/tp/v", 7, "rejected line 1 L01\n"),
        ("fail s1/tp/v\nfail s4/tp/v\n", 7, "rejected line 2 L02\n"),
        ("fail s1/tp/v\npass s1/tp/v\n", 7, "rejected line 2 L03\n"),
    ] {
        let (status, wrote) = reasoned(&rt, alloc, log.as_bytes())?;
        assert_eq!(rt; status.number(), number);
        assert_eq!(rt; str::from_utf8(wrote.as_slice())?, text);
    }
    let (status, wrote) = ran(
        &rt,
        alloc,
        &["reason", "m.toml", "--log=l"],
        RADIO.as_bytes(),
    )?;
    assert_eq!(rt; status, Status::Missing);
    assert_eq!(rt; wrote.len(), 0);
    let long = vec![in alloc; b'x'; 1_048_577]?;
    let (status, wrote) = reasoned(&rt, alloc, long.as_slice())?;
    assert_eq!(rt; status, Status::TooLong);
    assert_eq!(rt; wrote.len(), 0);
    Ok(())
}

/// How the check of a certificate against a model ends, and what it writes.
fn checked(alloc: Global, text: &str, cert: &str) -> Result<(Status, Vec<u8>), AllocError> {
    let mut shelf = MemShelf::new(alloc, Vec::new(alloc));
    shelf.add("m.toml", text.as_bytes())?;
    shelf.add("c", cert.as_bytes())?;
    let mut sink = MemSink::new(alloc, 4096, 4096, Vec::new(alloc))?;
    let plan = Plan {
        action: Action::Check,
        model: Text::of(alloc, "m.toml")?,
        cert: Some(Text::of(alloc, "c")?),
        workers: 0,
        groups: 4000,
        mode: None,
        log: None,
    };
    let status = run_quiet(alloc, &plan, &mut shelf, &mut sink);
    let wrote = Vec::from_slice(alloc, sink.wrote())?;
    Ok((status, wrote))
}

/// What was written by `solve` is accepted.
#[test]
fn certificates(rt: HostRuntime) -> Result<(), Fail> {
    let alloc = rt.alloc();
    for (text, report, line) in [
        (BOX, BOX_REPORT, "accepted optimal cost 27 low 27\n"),
        (UNTESTED, UNTESTED_REPORT, "accepted optimal cost 0 low 0\n"),
        (RADIO, RADIO_REPORT, "accepted optimal cost 84 low 84\n"),
        (STAR, STAR_REPORT, "accepted optimal cost 14 low 14\n"),
        (STAR, SHORT_STAR_REPORT, "accepted bounded cost 14 low 13\n"),
        (
            HALVES,
            SHORT_HALVES_REPORT,
            "accepted bounded cost 26 low 25\n",
        ),
    ] {
        let (status, wrote) = checked(alloc, text, report)?;
        assert_eq!(rt; wrote.as_slice(), line.as_bytes());
        assert_eq!(rt; status.number(), 0);
    }
    Ok(())
}

/// The report of the box with one text of it replaced.
#[test]
fn altered_certificates(rt: HostRuntime) -> Result<(), Fail> {
    let alloc = rt.alloc();
    for (old, new, line) in [
        ("cost 27", "cost 26", "rejected line 8 C04\n"),
        ("group 3 7 27", "group 3 7 28", "rejected line 26 C07\n"),
        (
            "group 3 7 27\nend\n",
            "group 3 7 27\n",
            "rejected line 27 C01\n",
        ),
        ("ask 0\nask 1", "ask 0\nask 0", "rejected line 22 C03\n"),
        ("weight 10", "weight 11", "rejected line 6 C02\n"),
        ("low 27", "low 28", "rejected line 9 C05\n"),
        (
            "low 27",
            "low 18446744073709551615",
            "rejected line 9 C05\n",
        ),
        ("gap 0", "gap 1", "rejected line 10 C05\n"),
        ("group 3 7 27", "group 3 f 27", "rejected line 26 C06\n"),
        (
            "group 3 7 27",
            "group 3 7 18446744073709551615",
            "rejected line 26 C07\n",
        ),
        ("group 3 7 27", "group 3 7 26", "rejected line 26 C08\n"),
        ("end\n", "end\n\n", "rejected line 28 C01\n"),
        ("cost 27", "cost 027", "rejected line 8 C01\n"),
    ] {
        let cert = BOX_REPORT.replacen(alloc, old, new, 1)?;
        let (status, wrote) = checked(alloc, BOX, cert.as_str())?;
        assert_eq!(rt; wrote.as_slice(), line.as_bytes());
        assert_eq!(rt; status.number(), 7);
    }
    let mut shelf = MemShelf::new(alloc, Vec::new(alloc));
    shelf.add("m.toml", BOX.as_bytes())?;
    let mut sink = MemSink::new(alloc, 64, 64, Vec::new(alloc))?;
    let words = words_of(alloc, &["check", "m.toml", "--cert=c"])?;
    let status = run(
        &rt,
        alloc,
        words.as_slice(),
        &mut shelf,
        &mut sink,
        &FreeGate,
    );
    assert_eq!(rt; status.number(), 8);
    Ok(())
}

/// The report of the star, whole and with four groups, with one text of it replaced: each line names what
/// the certificate claims wrongly of the model, or where it leaves its form.
#[test]
fn hostile_certificates(rt: HostRuntime) -> Result<(), Fail> {
    let alloc = rt.alloc();
    for (report, old, new, line) in [
        (
            STAR_REPORT,
            "class 0 1 1",
            "class 0 2 1",
            "rejected line 13 C02\n",
        ),
        (STAR_REPORT, "low 14", "low 15", "rejected line 9 C05\n"),
        (STAR_REPORT, "gap 0", "gap 1", "rejected line 10 C05\n"),
        (
            STAR_REPORT,
            "groups 5",
            "groups 4",
            "rejected line 40 C01\n",
        ),
        (
            STAR_REPORT,
            "group 4 1b 9\ngroup 4 1d 9",
            "group 4 1d 9\ngroup 4 1b 9",
            "rejected line 39 C06\n",
        ),
        (
            STAR_REPORT,
            "group 4 17 9",
            "group 4 17 10",
            "rejected line 37 C07\n",
        ),
        (
            STAR_REPORT,
            "group 5 1f 14",
            "group 5 1f 13",
            "rejected line 40 C08\n",
        ),
        (STAR_REPORT, "end\n", "end\n\n", "rejected line 42 C01\n"),
        (
            STAR_REPORT,
            "group 4 1b 9\n",
            "group 4 17 9\n",
            "rejected line 38 C06\n",
        ),
        (
            SHORT_STAR_REPORT,
            "missed 4 f",
            "missed 4 17",
            "rejected line 40 C09\n",
        ),
        (
            SHORT_STAR_REPORT,
            "missed 4 f",
            "missed 3 f",
            "rejected line 40 C09\n",
        ),
        (
            SHORT_STAR_REPORT,
            "limit 4",
            "limit 5",
            "rejected line 12 C05\n",
        ),
        (
            SHORT_STAR_REPORT,
            "low 13",
            "low 15",
            "rejected line 9 C05\n",
        ),
    ] {
        let cert = report.replacen(alloc, old, new, 1)?;
        let (status, wrote) = checked(alloc, STAR, cert.as_str())?;
        assert_eq!(rt; wrote.as_slice(), line.as_bytes());
        assert_eq!(rt; status.number(), 7);
    }
    let cheaper = BOX_REPORT.replacen(alloc, "cost 27\nlow 27", "cost 26\nlow 26", 1)?;
    let unsplit = cheaper
        .as_str()
        .replacen(alloc, "ask 0\nask 1", "ask 0\nask 0", 1)?;
    let cut = BOX_REPORT.replacen(alloc, "leaf 1\n", "", 1)?;
    for (cert, line) in [
        (unsplit.as_str(), "rejected line 22 C03\n"),
        (cut.as_str(), "rejected line 25 C03\n"),
        ("", "rejected line 1 C01\n"),
    ] {
        let (status, wrote) = checked(alloc, BOX, cert)?;
        assert_eq!(rt; wrote.as_slice(), line.as_bytes());
        assert_eq!(rt; status.number(), 7);
    }
    Ok(())
}

/// The greatest weights and costs: a chain of a hundred parts.
#[test]
fn greatest_numbers(rt: HostRuntime) -> Result<(), Fail> {
    let alloc = rt.alloc();
    let mut text = String::from_str(
        alloc,
        "version = 1\ngood = 1000000\ntop = \"b\"\nsignals = [\"s\"]\n[[block]]\nname = \"b\"\n",
    )?;
    for k in 0..100u64 {
        let part = format!(in alloc;
            "[[block.part]]\nname = \"p{k}\"\nfunctional = 1000000\nsignals = [\"s\"]\n"
        )?;
        text.push_str(part.as_str())?;
        let point = format!(in alloc;
            "[[block.point]]\nname = \"x{k}\"\ntest = [{{name = \"t\", cost = 1000000, signals = [\"s\"]}}]\n"
        )?;
        text.push_str(point.as_str())?;
        let link = format!(in alloc; "[[block.link]]\nfrom = \"p{k}\"\nto = \"x{k}\"\n")?;
        text.push_str(link.as_str())?;
    }
    for k in 1..100u64 {
        let before = k - 1;
        let link = format!(in alloc; "[[block.link]]\nfrom = \"p{before}\"\nto = \"p{k}\"\n")?;
        text.push_str(link.as_str())?;
    }
    let (status, wrote) = ran(&rt, alloc, &["solve", "m.toml"], text.as_str().as_bytes())?;
    assert_eq!(rt; status.number(), 0);
    let report = str::from_utf8(wrote.as_slice())?;
    assert!(rt;
        report.contains(
            "\nweight 101000000\nresult optimal\ncost 680000000000000\nlow 680000000000000\ngap 0\nlimit 4000\ngroups 1\n"
        )
    );
    Ok(())
}

/// The chains of one and of three parts, and one of twenty with as many groups as it has runs of classes.
#[test]
fn samples(rt: HostRuntime) -> Result<(), Fail> {
    let alloc = rt.alloc();
    for (parts, summary) in [("1", ONE_PART), ("3", THREE_PARTS), ("003", THREE_PARTS)] {
        let (status, wrote) = ran(&rt, alloc, &["sample", parts], b"")?;
        assert_eq!(rt; wrote.as_slice(), summary.as_bytes());
        assert_eq!(rt; status.number(), 0);
    }
    let (status, _wrote) = ran(&rt, alloc, &["sample", "20", "--groups=210"], b"")?;
    assert_eq!(rt; status.number(), 0);
    Ok(())
}

/// The longest chain with few groups is summed up twice in the same way.
#[test]
fn a_long_sample(rt: HostRuntime) -> Result<(), Fail> {
    let alloc = rt.alloc();
    let words = ["sample", "100", "--groups", "20"];
    let (status, wrote) = ran(&rt, alloc, &words, b"")?;
    let (_status, again) = ran(&rt, alloc, &words, b"")?;
    let counts = "teams sample 1\nparts 100\nstates 101\nclasses 101\ntests 100\n";
    assert!(rt; wrote.as_slice().starts_with(counts.as_bytes()));
    assert_eq!(rt; again.as_slice(), wrote.as_slice());
    if status.number() == 3 {
        let summary = str::from_utf8(wrote.as_slice())?;
        assert!(rt; summary.contains("\ngroups 20\nend\n"));
    } else {
        assert_eq!(rt; status.number(), 0);
    }
    Ok(())
}
