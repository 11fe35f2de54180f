//! The longest and the shortest values of a plan's fields.
ghost use Rattle.std.specs.Prelude.{◌≡◌, ◌++◌, ◌∷◌, [], IfOk, OnOk};
ghost use Rattle.fints_script.specs.Plans.{Admits};
ghost use Rattle.fints_wire.specs.Choices.{longest_choice, shortest_choice};

use fints_script::{FieldClass, Name, NamedField, Plan, Values};
use fints_syntax::Memory;
use std::alloc::Global;

fn push_longest<F: FieldClass>(
    alloc: Global,
    values: &mut Values,
    name: Name,
    class: &F,
) -> Result<(), Memory>
    ensures { OnOk result (
        values.new ≡ values.old ++ record { name = name; value = F.longest class.now } ∷ []) }
{
    let value = class.longest(alloc)?;
    values.push(name, value.as_slice())?;
    Ok(())
}

fn push_shortest<F: FieldClass>(
    alloc: Global,
    values: &mut Values,
    name: Name,
    class: &F,
) -> Result<(), Memory>
    ensures { OnOk result (
        values.new ≡ values.old ++ record { name = name; value = F.shortest class.now } ∷ []) }
{
    let value = class.shortest(alloc)?;
    values.push(name, value.as_slice())?;
    Ok(())
}

fn longest_values(alloc: Global, fields: &[NamedField]) -> Result<Values, Memory>
    ensures { IfOk result (λ v. v ≡ longest_choice fields.now) }
{
    let mut values = Values::new(alloc);
    for field in fields {
        push_longest(alloc, &mut values, field.name, &field.class)?;
    }
    Ok(values)
}

fn shortest_values(alloc: Global, fields: &[NamedField]) -> Result<Values, Memory>
    ensures { IfOk result (λ v. v ≡ shortest_choice fields.now) }
{
    let mut values = Values::new(alloc);
    for field in fields {
        push_shortest(alloc, &mut values, field.name, &field.class)?;
    }
    Ok(values)
}

/// Each field's longest value, in order.
pub fn worst_values(alloc: Global, plan: &Plan) -> Result<Values, Memory>
    ensures values { IfOk result (λ v. v ≡ longest_choice plan.now.script.fields) }
    ensures admitted { IfOk result (λ v. Admits plan.now.script.fields v) }
{
    let values = longest_values(alloc, plan.fields())?;
    Ok(values)
}

/// Each field's shortest value, in order.
pub fn least_values(alloc: Global, plan: &Plan) -> Result<Values, Memory>
    ensures values { IfOk result (λ v. v ≡ shortest_choice plan.now.script.fields) }
    ensures admitted { IfOk result (λ v. Admits plan.now.script.fields v) }
{
    let values = shortest_values(alloc, plan.fields())?;
    Ok(values)
}
