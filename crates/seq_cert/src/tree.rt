//! The strategy of a report in preorder. The group that reaches a node is carried along: at an end it
//! says which class that is.
ghost use Rattle.std.specs.Prelude.{◌≡◌, ◌∷◌, [], map, slice_index, OnOk};
ghost use Rattle.sig_lines.specs.Written.{with_line, with_lines};
ghost use Rattle.seq_theory.specs.Tree.{AsksOnly};
ghost use Rattle.seq_inst.specs.Instances.{problem_of};
ghost use Rattle.seq_inst.specs.Members.{members};
ghost use Rattle.seq_inst.specs.Trees.{tree_of};
ghost use Rattle.seq_cert.specs.declared.report.TreeLine.TheVariants.{Ask, Leaf};
ghost use Rattle.seq_cert.specs.Text.{tree_words};
ghost use Rattle.seq_cert.specs.TreeLines.{tree_lines};

use seq_inst::{Group, Instance, Strategy, parts_of};
use sig_lines::Lines;
use std::alloc::AllocError;

/// The lowest class of the group, or 0 where it has none.
pub fn lowest_class(group: &Group) -> u32
    ensures { result ≡ slice_index (members group.now) 0 }
{
    match group.first_from(0) {
        Some(class) => class,
        None => 0,
    }
}

fn write_ask(out: &mut Lines, test: u32) -> Result<(), AllocError>
    ensures { OnOk result (out.new ≡ with_line out.old (tree_words (Ask test))) }
{
    out.word("ask")?;
    out.number(u64::from(test))?;
    out.end_line()
}

fn write_leaf(out: &mut Lines, class: u32) -> Result<(), AllocError>
    ensures { OnOk result (out.new ≡ with_line out.old (tree_words (Leaf class))) }
{
    out.word("leaf")?;
    out.number(u64::from(class))?;
    out.end_line()
}

/// Writes the strategy from the group on: a test, what follows for the part that passes, and then what
/// follows for the part that fails.
pub(crate) fn write_tree(
    out: &mut Lines,
    inst: &Instance,
    strategy: &Strategy,
    group: &Group,
) -> Result<(), AllocError>
    requires { AsksOnly (problem_of inst.now).tests (tree_of strategy.now) }
    ensures { OnOk result (out.new ≡ with_lines out.old (map tree_words (tree_lines (problem_of inst.now) (tree_of strategy.now) (members group.now)))) }
{
    match strategy {
        Strategy::Leaf => write_leaf(out, lowest_class(group)),
        Strategy::Ask { test, pass, fail } => {
            write_ask(out, *test)?;
            let parts = parts_of(inst, group, *test);
            write_tree(out, inst, pass, &parts.pass)?;
            write_tree(out, inst, fail, &parts.fail)?;
            Ok(())
        }
    }
}
