//! The texts of the worked examples, with what the program prints of them, as an
//! independent program computed it.

/// The two-part box.
pub const BOX: &str = r#"version = 1
good = 6
top = "box"
signals = ["s"]

[[block]]
name = "box"
part = [
  {name = "A", functional = 3, signals = ["s"]},
  {name = "B", functional = 1, signals = ["s"]},
]
point = [
  {name = "X", test = [{name = "tA", cost = 2, signals = ["s"]}]},
  {name = "Y", test = [{name = "tB", cost = 1, signals = ["s"]}]},
]
link = [{from = "A", to = "X"}, {from = "B", to = "Y"}]
"#;

/// Three parts in a row, with a point behind each.
pub const CHAIN: &str = r#"version = 1
good = 1
top = "chain"
signals = ["s"]

[[block]]
name = "chain"
part = [
  {name = "P1", functional = 1, signals = ["s"]},
  {name = "P2", functional = 1, signals = ["s"]},
  {name = "P3", functional = 1, signals = ["s"]},
]
point = [
  {name = "X1", test = [{name = "t", cost = 1, signals = ["s"]}]},
  {name = "X2", test = [{name = "t", cost = 1, signals = ["s"]}]},
  {name = "X3", test = [{name = "t", cost = 1, signals = ["s"]}]},
]
link = [
  {from = "P1", to = "P2"}, {from = "P2", to = "P3"},
  {from = "P1", to = "X1"}, {from = "P2", to = "X2"}, {from = "P3", to = "X3"},
]
"#;

/// No test at all: one ambiguity group of three states.
pub const UNTESTED: &str = r#"version = 1
good = 3
top = "b"
signals = ["s"]

[[block]]
name = "b"
part = [{name = "A", functional = 2, signals = ["s"]}, {name = "B", functional = 1, signals = ["s"]}]
"#;

/// A fault that no test sees stays with no fault.
pub const UNSEEN: &str = r#"version = 1
good = 2
top = "b"
signals = ["s"]

[[block]]
name = "b"
part = [{name = "A", functional = 3, signals = ["s"]}, {name = "B", functional = 4, signals = ["s"]}]
point = [{name = "X", test = [{name = "t", cost = 1, signals = ["s"]}]}]
link = [{from = "A", to = "X"}]
"#;

/// Without a state of no fault one fault is the one state, and nothing is asked.
pub const ALONE: &str = r#"version = 1
good = 0
top = "b"
signals = ["s"]

[[block]]
name = "b"
part = [{name = "A", functional = 5, signals = ["s"]}]
point = [{name = "X", test = [{name = "t", cost = 1, signals = ["s"]}]}]
link = [{from = "A", to = "X"}]
"#;

/// Two parts in a loop, which no test tells apart.
pub const RING: &str = r#"version = 1
good = 1
top = "ring"
signals = ["s"]

[[block]]
name = "ring"
part = [
  {name = "A", functional = 1, signals = ["s"]},
  {name = "B", functional = 1, signals = ["s"]},
]
point = [{name = "X", test = [{name = "t", cost = 1, signals = ["s"]}]}]
link = [{from = "A", to = "B"}, {from = "B", to = "A"}, {from = "B", to = "X"}]
"#;

/// The one path of the signal is stopped, and the general fault passes.
pub const ONE_PATH: &str = r#"version = 1
good = 1
top = "line"
signals = ["s"]

[[block]]
name = "line"
part = [
  {name = "A", functional = 2, signals = ["s"], general = 1},
  {name = "P", stops = ["s"]},
]
point = [{name = "X", test = [{name = "t", cost = 1, signals = ["s"]}]}]
link = [{from = "A", to = "P"}, {from = "P", to = "X"}]
"#;

/// A second path leads round the part that stops the signal.
pub const TWO_PATHS: &str = r#"version = 1
good = 1
top = "line"
signals = ["s"]

[[block]]
name = "line"
part = [
  {name = "A", functional = 2, signals = ["s"], general = 1},
  {name = "P", stops = ["s"]},
  {name = "Q"},
]
point = [{name = "X", test = [{name = "t", cost = 1, signals = ["s"]}]}]
link = [
  {from = "A", to = "P"}, {from = "P", to = "X"},
  {from = "A", to = "Q"}, {from = "Q", to = "X"},
]
"#;

/// A switch joins one of two sources, by the mode.
pub const FEED: &str = r#"version = 1
good = 1
top = "feed"
signals = ["s"]
modes = ["normal", "backup"]

[[block]]
name = "feed"
switches = ["W"]
part = [
  {name = "A", functional = 1, signals = ["s"]},
  {name = "B", functional = 1, signals = ["s"]},
]
point = [{name = "X", test = [
  {name = "tn", cost = 1, signals = ["s"], mode = "normal"},
  {name = "tb", cost = 1, signals = ["s"], mode = "backup"},
]}]
link = [
  {from = "A", to = "W", modes = ["normal"]},
  {from = "B", to = "W", modes = ["backup"]},
  {from = "W", to = "X", modes = ["normal", "backup"]},
]
"#;

/// Three stages of one block in a row.
pub const RADIO: &str = r#"version = 1
good = 10
top = "radio"
signals = ["gain"]

[[block]]
name = "stage"
ports = ["in", "out"]
part = [{name = "amp", functional = 4, signals = ["gain"]}]
point = [{name = "tp", test = [{name = "v", cost = 2, signals = ["gain"]}]}]
link = [
  {from = "in", to = "amp"}, {from = "amp", to = "out"}, {from = "amp", to = "tp"},
]

[[block]]
name = "radio"
use = [
  {name = "s1", block = "stage"},
  {name = "s2", block = "stage"},
  {name = "s3", block = "stage"},
]
link = [{from = "s1.out", to = "s2.in"}, {from = "s2.out", to = "s3.in"}]
"#;

/// Two points that see the same, and one that sees nothing.
pub const TWINS: &str = r#"version = 1
good = 1
top = "b"
signals = ["s", "u"]

[[block]]
name = "b"
part = [{name = "A", functional = 2, signals = ["s"]}, {name = "B", functional = 3, signals = ["s"]}]
point = [
  {name = "X", test = [{name = "t", cost = 1, signals = ["s"]}, {name = "v", cost = 1, signals = ["u"]}]},
  {name = "Y", test = [{name = "t", cost = 1, signals = ["s"]}]},
  {name = "Z", test = [{name = "t", cost = 1, signals = ["s"]}]},
]
link = [{from = "A", to = "X"}, {from = "B", to = "X"}, {from = "A", to = "Y"}, {from = "B", to = "Y"}, {from = "B", to = "Z"}]
"#;

/// A part with an unknown key.
pub const COLOURED: &str = r#"version = 1
good = 6
top = "box"
signals = ["s"]

[[block]]
name = "box"
part = [
  {name = "A", colour = 1, functional = 3, signals = ["s"]},
  {name = "B", functional = 1, signals = ["s"]},
]
point = [
  {name = "X", test = [{name = "tA", cost = 2, signals = ["s"]}]},
  {name = "Y", test = [{name = "tB", cost = 1, signals = ["s"]}]},
]
link = [{from = "A", to = "X"}, {from = "B", to = "Y"}]
"#;

/// A weight past the greatest.
pub const HEAVY: &str = r#"version = 1
good = 6
top = "box"
signals = ["s"]

[[block]]
name = "box"
part = [
  {name = "A", functional = 1000001, signals = ["s"]},
  {name = "B", functional = 1, signals = ["s"]},
]
point = [
  {name = "X", test = [{name = "tA", cost = 2, signals = ["s"]}]},
  {name = "Y", test = [{name = "tB", cost = 1, signals = ["s"]}]},
]
link = [{from = "A", to = "X"}, {from = "B", to = "Y"}]
"#;

/// A block that uses a later one.
pub const LATER_BLOCK: &str = r#"version = 1
good = 1
top = "a"

[[block]]
name = "a"
use = [{name = "u", block = "b"}]

[[block]]
name = "b"
"#;

/// A block that uses itself.
pub const OWN_BLOCK: &str = r#"version = 1
good = 1
top = "a"

[[block]]
name = "a"
use = [{name = "u", block = "a"}]
"#;

/// A link at a switch that names no mode.
pub const MODELESS: &str = r#"version = 1
good = 1
top = "b"

[[block]]
name = "b"
switches = ["W"]
part = [{name = "A", general = 1}]
link = [{from = "A", to = "W"}]
"#;

/// No weight of no fault, and no fault.
pub const STATELESS: &str = r#"version = 1
good = 0
top = "b"

[[block]]
name = "b"
part = [{name = "A"}]
"#;

pub const BOX_REPORT: &str = r#"teams report 1
mode -
states 3
classes 3
tests 2
weight 10
result optimal
cost 27
low 27
gap 0
limit 4000
groups 1
class 0 6 1
state 6 good
class 1 3 1
state 3 A.f
class 2 1 1
state 1 B.f
test 0 2 X/tA
test 1 1 Y/tB
ask 0
ask 1
leaf 0
leaf 2
leaf 1
group 3 7 27
end
"#;

pub const CHAIN_REPORT: &str = r#"teams report 1
mode -
states 4
classes 4
tests 3
weight 4
result optimal
cost 8
low 8
gap 0
limit 4000
groups 1
class 0 1 1
state 1 good
class 1 1 1
state 1 P1.f
class 2 1 1
state 1 P2.f
class 3 1 1
state 1 P3.f
test 0 1 X1/t
test 1 1 X2/t
test 2 1 X3/t
ask 1
ask 2
leaf 0
leaf 3
ask 0
leaf 2
leaf 1
group 4 f 8
end
"#;

pub const UNTESTED_REPORT: &str = r#"teams report 1
mode -
states 3
classes 1
tests 0
weight 6
result optimal
cost 0
low 0
gap 0
limit 4000
groups 0
class 0 6 3
state 3 good
state 2 A.f
state 1 B.f
leaf 0
end
"#;

pub const UNSEEN_REPORT: &str = r#"teams report 1
mode -
states 3
classes 2
tests 1
weight 9
result optimal
cost 9
low 9
gap 0
limit 4000
groups 1
class 0 6 2
state 2 good
state 4 B.f
class 1 3 1
state 3 A.f
test 0 1 X/t
ask 0
leaf 0
leaf 1
group 2 3 9
end
"#;

pub const ALONE_REPORT: &str = r#"teams report 1
mode -
states 1
classes 1
tests 1
weight 5
result optimal
cost 0
low 0
gap 0
limit 4000
groups 0
class 0 5 1
state 5 A.f
test 0 1 X/t
leaf 0
end
"#;

pub const RING_REPORT: &str = r#"teams report 1
mode -
states 3
classes 2
tests 1
weight 3
result optimal
cost 3
low 3
gap 0
limit 4000
groups 1
class 0 1 1
state 1 good
class 1 2 2
state 1 A.f
state 1 B.f
test 0 1 X/t
ask 0
leaf 0
leaf 1
group 2 3 3
end
"#;

pub const RADIO_REPORT: &str = r#"teams report 1
mode -
states 4
classes 4
tests 3
weight 22
result optimal
cost 84
low 84
gap 0
limit 4000
groups 1
class 0 10 1
state 10 good
class 1 4 1
state 4 s1/amp.f
class 2 4 1
state 4 s2/amp.f
class 3 4 1
state 4 s3/amp.f
test 0 2 s1/tp/v
test 1 2 s2/tp/v
test 2 2 s3/tp/v
ask 2
leaf 0
ask 0
ask 1
leaf 3
leaf 2
leaf 1
group 4 f 84
end
"#;

pub const BOX_MATRIX: &str = r#"teams matrix 1
mode -
tests 2
test 0 2 X/tA
test 1 1 Y/tB
states 3
state 6 00 good
state 3 10 A.f
state 1 01 B.f
end
"#;

pub const ONE_PATH_MATRIX: &str = r#"teams matrix 1
mode -
tests 1
test 0 1 X/t
states 3
state 1 0 good
state 2 0 A.f
state 1 1 A.g
end
"#;

pub const TWO_PATHS_MATRIX: &str = r#"teams matrix 1
mode -
tests 1
test 0 1 X/t
states 3
state 1 0 good
state 2 1 A.f
state 1 1 A.g
end
"#;

pub const FEED_MATRIX: &str = r#"teams matrix 1
mode -
tests 2
test 0 1 X/tn
test 1 1 X/tb
states 3
state 1 00 good
state 1 10 A.f
state 1 01 B.f
end
"#;

pub const BACKUP_MATRIX: &str = r#"teams matrix 1
mode backup
tests 1
test 0 1 X/tb
states 3
state 1 0 good
state 1 0 A.f
state 1 1 B.f
end
"#;

pub const RING_FIGURES: &str = r#"teams figures 1
mode -
faults 2
tests 1
detected 2 of 2
classes 2
size 2 2
loop A
loop B
end
"#;

pub const UNSEEN_FIGURES: &str = r#"teams figures 1
mode -
faults 2
tests 1
detected 3 of 7
classes 2
size 1 1
size 2 1
undetected B.f
end
"#;

pub const TWINS_FIGURES: &str = r#"teams figures 1
mode -
faults 2
tests 4
detected 5 of 5
classes 3
size 1 2
blind X/v
equal Y/t X/t
end
"#;

/// The summaries of the chains of one and of three parts. One part of weight 8 beside a good state of 10 is told by one
/// test of cost 4.
pub const ONE_PART: &str = "teams sample 1
parts 1
states 2
classes 2
tests 1
result optimal
cost 72
low 72
groups 1
end
";

pub const THREE_PARTS: &str = "teams sample 1
parts 3
states 4
classes 4
tests 3
result optimal
cost 131
low 131
groups 2
end
";
