//! What bodies see of one another and of classes: names, parents and parameters. The outlines stay while the parts are
//! linked and given away.

ghost use Rattle.std.specs.Prelude.{◌≡◌, IfOk, map};
ghost use Rattle.hhbc_repo.specs.Outlines as outlines;

use crate::class_list::push_name;
use crate::link_operands::perhaps_copied;
use crate::parts::{BodyParts, ClassParts, PropertyParts};
use crate::repo::Const;
use hack_values::{Cell, NoMemory, Seq, Text};
use std::alloc::Global;

fn copied_names(alloc: Global, names: &[Text]) -> Result<Seq<Text>, NoMemory>
    ensures { IfOk result (λ copies. copies ≡ names.now) }
{
    let mut copies = Seq::new(alloc);
    for name in names {
        push_name(&mut copies, alloc, name.bytes())?;
    }
    Ok(copies)
}

/// A body's name and parameters.
fn body_outline(alloc: Global, body: &BodyParts) -> Result<BodyParts, NoMemory>
    ensures { IfOk result (λ b. b ≡ outlines.body_outline body.now) }
{
    Ok(BodyParts {
        name: body.name.copy(alloc)?,
        params: copied_names(alloc, body.params.as_slice())?,
        locals: Seq::new(alloc),
        iters: 0,
        stated: None,
        items: Seq::new(alloc),
    })
}

/// The names and parameters of bodies.
pub(crate) fn body_outlines(alloc: Global, bodies: &[BodyParts]) -> Result<Seq<BodyParts>, NoMemory>
    ensures { IfOk result (λ all. all ≡ map outlines.body_outline bodies.now) }
{
    let mut all = Seq::new(alloc);
    for body in bodies {
        all.push(body_outline(alloc, body)?)?;
    }
    Ok(all)
}

/// The names of constants.
fn constant_outlines(alloc: Global, constants: &[Const]) -> Result<Seq<Const>, NoMemory>
    ensures { IfOk result (λ all. all ≡ map outlines.constant_outline constants.now) }
{
    let mut all = Seq::new(alloc);
    for constant in constants {
        all.push(Const {
            name: constant.name.copy(alloc)?,
            value: Cell::Null,
        })?;
    }
    Ok(all)
}

/// The names of properties.
fn property_outlines(
    alloc: Global,
    properties: &[PropertyParts],
) -> Result<Seq<PropertyParts>, NoMemory>
    ensures { IfOk result (λ all. all ≡ map outlines.property_outline properties.now) }
{
    let mut all = Seq::new(alloc);
    for property in properties {
        all.push(PropertyParts {
            name: property.name.copy(alloc)?,
            initial: Cell::Null,
            stated: None,
        })?;
    }
    Ok(all)
}

/// A class's name and parent, the names that it declares, and the parameters of its methods.
fn class_outline(alloc: Global, class: &ClassParts) -> Result<ClassParts, NoMemory>
    ensures { IfOk result (λ c. c ≡ outlines.class_outline class.now) }
{
    Ok(ClassParts {
        name: class.name.copy(alloc)?,
        parent: perhaps_copied(alloc, &class.parent)?,
        consts: constant_outlines(alloc, class.consts.as_slice())?,
        props: property_outlines(alloc, class.props.as_slice())?,
        methods: body_outlines(alloc, class.methods.as_slice())?,
    })
}

/// The outlines of classes.
pub(crate) fn class_outlines(
    alloc: Global,
    classes: &[ClassParts],
) -> Result<Seq<ClassParts>, NoMemory>
    ensures { IfOk result (λ all. all ≡ map outlines.class_outline classes.now) }
{
    let mut all = Seq::new(alloc);
    for class in classes {
        all.push(class_outline(alloc, class)?)?;
    }
    Ok(all)
}
