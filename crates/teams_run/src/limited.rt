//! Models whose search may meet its limit of groups, with the reports that it comes to then, as an
//! independent program for the same walk prints them.

/// A point behind each of four parts.
pub const STAR: &str = r#"version = 1
good = 1
top = "star"
signals = ["s"]

[[block]]
name = "star"
part = [
  {name = "F1", functional = 1, signals = ["s"]},
  {name = "F2", functional = 1, signals = ["s"]},
  {name = "F3", functional = 1, signals = ["s"]},
  {name = "F4", functional = 1, signals = ["s"]},
]
point = [
  {name = "X1", test = [{name = "t", cost = 1, signals = ["s"]}]},
  {name = "X2", test = [{name = "t", cost = 1, signals = ["s"]}]},
  {name = "X3", test = [{name = "t", cost = 1, signals = ["s"]}]},
  {name = "X4", test = [{name = "t", cost = 1, signals = ["s"]}]},
]
link = [
  {from = "F1", to = "X1"}, {from = "F2", to = "X2"},
  {from = "F3", to = "X3"}, {from = "F4", to = "X4"},
]
"#;

pub const STAR_REPORT: &str = r#"teams report 1
mode -
states 5
classes 5
tests 4
weight 5
result optimal
cost 14
low 14
gap 0
limit 5
groups 5
class 0 1 1
state 1 good
class 1 1 1
state 1 F1.f
class 2 1 1
state 1 F2.f
class 3 1 1
state 1 F3.f
class 4 1 1
state 1 F4.f
test 0 1 X1/t
test 1 1 X2/t
test 2 1 X3/t
test 3 1 X4/t
ask 0
ask 1
ask 2
ask 3
leaf 0
leaf 4
leaf 3
leaf 2
leaf 1
group 4 f 9
group 4 17 9
group 4 1b 9
group 4 1d 9
group 5 1f 14
end
"#;

/// The report of the star where four groups may be entered.
pub const SHORT_STAR_REPORT: &str = r#"teams report 1
mode -
states 5
classes 5
tests 4
weight 5
result bounded
cost 14
low 13
gap 1
limit 4
groups 4
class 0 1 1
state 1 good
class 1 1 1
state 1 F1.f
class 2 1 1
state 1 F2.f
class 3 1 1
state 1 F3.f
class 4 1 1
state 1 F4.f
test 0 1 X1/t
test 1 1 X2/t
test 2 1 X3/t
test 3 1 X4/t
ask 0
ask 1
ask 2
ask 3
leaf 0
leaf 4
leaf 3
leaf 2
leaf 1
group 4 17 9
group 4 1b 9
group 4 1d 9
group 5 1f 13
missed 4 f
end
"#;

/// A point that splits eight parts in halves, and one behind each.
pub const HALVES: &str = r#"version = 1
good = 0
top = "halves"
signals = ["s"]

[[block]]
name = "halves"
part = [
  {name = "F1", functional = 1, signals = ["s"]},
  {name = "F2", functional = 1, signals = ["s"]},
  {name = "F3", functional = 1, signals = ["s"]},
  {name = "F4", functional = 1, signals = ["s"]},
  {name = "F5", functional = 1, signals = ["s"]},
  {name = "F6", functional = 1, signals = ["s"]},
  {name = "F7", functional = 1, signals = ["s"]},
  {name = "F8", functional = 1, signals = ["s"]},
]
point = [
  {name = "X0", test = [{name = "t", cost = 1, signals = ["s"]}]},
  {name = "X1", test = [{name = "t", cost = 1, signals = ["s"]}]},
  {name = "X2", test = [{name = "t", cost = 1, signals = ["s"]}]},
  {name = "X3", test = [{name = "t", cost = 1, signals = ["s"]}]},
  {name = "X4", test = [{name = "t", cost = 1, signals = ["s"]}]},
  {name = "X5", test = [{name = "t", cost = 1, signals = ["s"]}]},
  {name = "X6", test = [{name = "t", cost = 1, signals = ["s"]}]},
  {name = "X7", test = [{name = "t", cost = 1, signals = ["s"]}]},
  {name = "X8", test = [{name = "t", cost = 1, signals = ["s"]}]},
]
link = [
  {from = "F5", to = "X0"},
  {from = "F6", to = "X0"},
  {from = "F7", to = "X0"},
  {from = "F8", to = "X0"},
  {from = "F1", to = "X1"},
  {from = "F2", to = "X2"},
  {from = "F3", to = "X3"},
  {from = "F4", to = "X4"},
  {from = "F5", to = "X5"},
  {from = "F6", to = "X6"},
  {from = "F7", to = "X7"},
  {from = "F8", to = "X8"},
]
"#;

/// The report of the halves where two groups may be entered.
pub const SHORT_HALVES_REPORT: &str = r#"teams report 1
mode -
states 8
classes 8
tests 9
weight 8
result bounded
cost 26
low 25
gap 1
limit 2
groups 2
class 0 1 1
state 1 F1.f
class 1 1 1
state 1 F2.f
class 2 1 1
state 1 F3.f
class 3 1 1
state 1 F4.f
class 4 1 1
state 1 F5.f
class 5 1 1
state 1 F6.f
class 6 1 1
state 1 F7.f
class 7 1 1
state 1 F8.f
test 0 1 X0/t
test 1 1 X1/t
test 2 1 X2/t
test 3 1 X3/t
test 4 1 X4/t
test 5 1 X5/t
test 6 1 X6/t
test 7 1 X7/t
test 8 1 X8/t
ask 0
ask 1
ask 2
ask 3
leaf 3
leaf 2
leaf 1
leaf 0
ask 5
ask 6
ask 7
leaf 7
leaf 6
leaf 5
leaf 4
group 4 f 9
group 8 ff 25
missed 4 f0
end
"#;

/// Four faults over five crossed tests. Without a limit nine groups are entered; eight of them already
/// show the least cost, though the walk, which goes on from the bounds that it has stored, wants a ninth.
pub const CROSSED: &str = r#"version = 1
good = 4
top = "b"
signals = ["s"]

[[block]]
name = "b"
part = [
  {name = "F1", functional = 9, signals = ["s"]},
  {name = "F2", functional = 2, signals = ["s"]},
  {name = "F3", functional = 2, signals = ["s"]},
  {name = "F4", functional = 7, signals = ["s"]},
]
point = [
  {name = "X1", test = [{name = "t", cost = 5, signals = ["s"]}]},
  {name = "X2", test = [{name = "t", cost = 4, signals = ["s"]}]},
  {name = "X3", test = [{name = "t", cost = 3, signals = ["s"]}]},
  {name = "X4", test = [{name = "t", cost = 5, signals = ["s"]}]},
  {name = "X5", test = [{name = "t", cost = 1, signals = ["s"]}]},
]
link = [
  {from = "F1", to = "X3"},
  {from = "F2", to = "X2"}, {from = "F2", to = "X3"}, {from = "F2", to = "X4"},
  {from = "F3", to = "X1"}, {from = "F3", to = "X4"}, {from = "F3", to = "X5"},
  {from = "F4", to = "X1"}, {from = "F4", to = "X3"}, {from = "F4", to = "X4"},
]
"#;

/// Its report where eight groups may be entered.
pub const CROSSED_REPORT: &str = r#"teams report 1
mode -
states 5
classes 5
tests 5
weight 24
result optimal
cost 204
low 204
gap 0
limit 8
groups 8
class 0 4 1
state 4 good
class 1 9 1
state 9 F1.f
class 2 2 1
state 2 F2.f
class 3 2 1
state 2 F3.f
class 4 7 1
state 7 F4.f
test 0 5 X1/t
test 1 4 X2/t
test 2 3 X3/t
test 3 5 X4/t
test 4 1 X5/t
ask 2
ask 4
leaf 0
leaf 3
ask 3
leaf 1
ask 1
leaf 4
leaf 2
group 2 3 39
group 2 9 6
group 3 7 89
group 3 16 126
group 3 1c 47
group 4 17 185
group 4 1b 137
group 5 1f 204
end
"#;

/// Five faults over five tests. When seven groups are entered the walk has stored a low of 123 for the
/// group of all classes, and the seven groups together give it 125.
pub const LAGGING: &str = r#"version = 1
good = 6
top = "b"
signals = ["s"]

[[block]]
name = "b"
part = [
  {name = "F1", functional = 1, signals = ["s"]},
  {name = "F2", functional = 4, signals = ["s"]},
  {name = "F3", functional = 9, signals = ["s"]},
  {name = "F4", functional = 3, signals = ["s"]},
  {name = "F5", functional = 9, signals = ["s"]},
]
point = [
  {name = "X1", test = [{name = "t", cost = 4, signals = ["s"]}]},
  {name = "X2", test = [{name = "t", cost = 1, signals = ["s"]}]},
  {name = "X3", test = [{name = "t", cost = 2, signals = ["s"]}]},
  {name = "X4", test = [{name = "t", cost = 1, signals = ["s"]}]},
  {name = "X5", test = [{name = "t", cost = 1, signals = ["s"]}]},
]
link = [
  {from = "F1", to = "X2"}, {from = "F1", to = "X3"}, {from = "F1", to = "X4"}, {from = "F1", to = "X5"},
  {from = "F2", to = "X1"}, {from = "F2", to = "X4"},
  {from = "F3", to = "X4"},
  {from = "F4", to = "X1"}, {from = "F4", to = "X2"}, {from = "F4", to = "X3"},
  {from = "F5", to = "X1"}, {from = "F5", to = "X2"}, {from = "F5", to = "X3"}, {from = "F5", to = "X5"},
]
"#;

/// Its report where seven groups may be entered.
pub const LAGGING_REPORT: &str = r#"teams report 1
mode -
states 6
classes 6
tests 5
weight 32
result optimal
cost 125
low 125
gap 0
limit 7
groups 7
class 0 6 1
state 6 good
class 1 1 1
state 1 F1.f
class 2 4 1
state 4 F2.f
class 3 9 1
state 9 F3.f
class 4 3 1
state 3 F4.f
class 5 9 1
state 9 F5.f
test 0 4 X1/t
test 1 1 X2/t
test 2 2 X3/t
test 3 1 X4/t
test 4 1 X5/t
ask 3
ask 4
ask 1
leaf 0
leaf 4
leaf 5
ask 0
ask 1
leaf 3
leaf 1
leaf 2
group 2 22 10
group 3 d 71
group 3 e 66
group 3 31 27
group 3 32 23
group 4 1d 83
group 6 3f 125
end
"#;
