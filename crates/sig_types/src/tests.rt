//! Models by hand: some that are refused, with the first breach that they are to be refused for, and a large one.

use crate::{
    Block, Code, End, Good, Key, Kind, Link, List, Model, ModelFault, Name, Part, Place, Refusal,
    Used,
};
use std::alloc::Global;
use std::test::Fail;

fn name_of(text: &str) -> Result<Name, Fail> {
    Ok(Name::of(text).ok_or("no name")?)
}

fn empty_block(alloc: Global, name: &str) -> Result<Block, Fail> {
    Ok(Block {
        name: name_of(name)?,
        ports: List::new(alloc),
        switches: List::new(alloc),
        parts: List::new(alloc),
        uses: List::new(alloc),
        points: List::new(alloc),
        links: List::new(alloc),
    })
}

fn empty_model(alloc: Global, top: &str) -> Result<Model, Fail> {
    Ok(Model {
        good: Good::of(1).ok_or("no weight")?,
        top: name_of(top)?,
        signals: List::new(alloc),
        modes: List::new(alloc),
        blocks: List::new(alloc),
    })
}

fn part(alloc: Global, name: &str) -> Result<Part, Fail> {
    Ok(Part {
        name: name_of(name)?,
        functional: None,
        general: None,
        stops: List::new(alloc),
    })
}

fn use_of(name: &str, block: &str) -> Result<Used, Fail> {
    Ok(Used {
        name: name_of(name)?,
        block: name_of(block)?,
    })
}

fn link(alloc: Global, from: &str, to: &str) -> Result<Link, Fail> {
    Ok(Link {
        from: End {
            first: name_of(from)?,
            second: None,
        },
        to: End {
            first: name_of(to)?,
            second: None,
        },
        modes: List::new(alloc),
    })
}

fn refusal_of(alloc: Global, model: Model) -> Result<Refusal, Fail> {
    match model.check(alloc) {
        Ok(_) => Err(Fail::from("no refusal")),
        Err(ModelFault::OutOfMemory) => Err(Fail::from("no memory")),
        Err(ModelFault::Refused(refusal)) => Ok(refusal),
    }
}

#[test]
fn a_later_block_is_not_used(rt: HostRuntime) -> Result<(), Fail> {
    let alloc = rt.alloc();
    let mut first = empty_block(alloc, "first")?;
    first.uses.push(use_of("u", "later")?)?;
    let mut model = empty_model(alloc, "first")?;
    model.blocks.push(first)?;
    model.blocks.push(empty_block(alloc, "later")?)?;
    let refusal = refusal_of(alloc, model)?;
    assert!(rt; refusal.code == Code::M10);
    assert!(rt;
        matches!(
            refusal.place,
            Place::In {
                block: Some(0),
                item: Some((Kind::Use, 0)),
                test: None,
                key: Some(Key::Block),
                element: None
            }
        )
    );
    Ok(())
}

#[test]
fn a_block_does_not_use_itself(rt: HostRuntime) -> Result<(), Fail> {
    let alloc = rt.alloc();
    let mut only = empty_block(alloc, "only")?;
    only.uses.push(use_of("u", "only")?)?;
    let mut model = empty_model(alloc, "none")?;
    model.blocks.push(only)?;
    let refusal = refusal_of(alloc, model)?;
    assert!(rt; refusal.code == Code::M10);
    assert!(rt;
        matches!(
            refusal.place,
            Place::In {
                block: Some(0),
                item: Some((Kind::Use, 0)),
                test: None,
                key: Some(Key::Block),
                element: None
            }
        )
    );
    Ok(())
}

#[test]
fn a_link_to_a_switch_names_modes(rt: HostRuntime) -> Result<(), Fail> {
    let alloc = rt.alloc();
    let mut only = empty_block(alloc, "only")?;
    only.switches.push(name_of("W")?)?;
    only.parts.push(part(alloc, "A")?)?;
    only.links.push(link(alloc, "A", "W")?)?;
    let mut model = empty_model(alloc, "only")?;
    model.blocks.push(only)?;
    let refusal = refusal_of(alloc, model)?;
    assert!(rt; refusal.code == Code::M12);
    assert!(rt;
        matches!(
            refusal.place,
            Place::In {
                block: Some(0),
                item: Some((Kind::Link, 0)),
                test: None,
                key: None,
                element: None
            }
        )
    );
    Ok(())
}

#[test]
fn normal_is_the_mode_of_a_model_without_modes(rt: HostRuntime) -> Result<(), Fail> {
    let alloc = rt.alloc();
    let mut model = empty_model(alloc, "only")?;
    model.blocks.push(empty_block(alloc, "only")?)?;
    let valid = model.check(alloc)?;
    let modes = valid.model().modes.as_slice();
    assert_eq!(rt; modes.len(), 1);
    assert_eq!(rt; modes[0].as_str(), "normal");
    Ok(())
}

/// A block of so many parts, each of which is linked to the next.
fn long_block(alloc: Global, parts: u32) -> Result<Block, Fail> {
    let mut block = empty_block(alloc, "long")?;
    block.parts.push(part(alloc, "start")?)?;
    let mut last = String::from_str(alloc, "start")?;
    for k in 1..parts {
        let name = format!(in alloc; "p{}", k)?;
        block.parts.push(part(alloc, name.as_str())?)?;
        block
            .links
            .push(link(alloc, last.as_str(), name.as_str())?)?;
        last = name;
    }
    Ok(block)
}

#[test]
fn a_large_model_is_checked_at_once(rt: HostRuntime) -> Result<(), Fail> {
    let alloc = rt.alloc();
    let mut model = empty_model(alloc, "long")?;
    model.blocks.push(long_block(alloc, 4096)?)?;
    for k in 1..1024u32 {
        let name = format!(in alloc; "b{}", k)?;
        let mut block = empty_block(alloc, name.as_str())?;
        block.uses.push(use_of("u", "long")?)?;
        model.blocks.push(block)?;
    }
    let valid = model.check(alloc)?;
    assert_eq!(rt; valid.model().blocks.len(), 1024);
    Ok(())
}
