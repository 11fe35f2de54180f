//! Objects, and lists of objects, written member by member.
ghost use Rattle.std.specs.Prelude.{◌≡◌, ◌∷◌, ◌++◌, map, OnOk, IfOk};
ghost use Rattle.json.specs.Tree.{json_tokens};
ghost use Rattle.fints_cli_json.specs.Objects.{line_of, list, nested, object_of};
ghost use Rattle.fints_cli_json.specs.Tokens.{all_values, member_tokens};

use json::Writer;
use std::alloc::{AllocError, Global};

/// What is written as an object of JSON.
pub trait Object {
    ghost use Rattle.std.specs.Prelude.{◌≡◌, ◌++◌, List, OnOk};
    ghost use Rattle.fints_cli_json.specs.Objects.{Member};
    ghost use Rattle.fints_cli_json.specs.Tokens.{all_members};

    /// Its members, in their order.
    ghost members: { Self → List Member };

    /// Writes its members, one after another.
    fn write_members(&self, alloc: Global, out: &mut Writer) -> Result<(), AllocError>
        ensures tokens { OnOk result (out.new.tokens ≡ out.old.tokens ++ all_members (members self.now)) }
        ensures before { out.new.before ≡ out.old.before };
}

// Writes an object.
#[tactic(auto, using(crate::proofs::ObjectLemmas::in_object))]
fn write_object<T: Object>(alloc: Global, out: &mut Writer, object: &T) -> Result<(), AllocError>
    ensures tokens { OnOk result
        (out.new.tokens ≡ out.old.tokens ++ json_tokens (object_of (T.members object.now))) }
    ensures before { out.new.before ≡ out.old.before }
{
    out.begin_object()?;
    object.write_members(alloc, out)?;
    out.end_object()
}

// Writes objects, one after another.
fn write_objects<T: Object>(
    alloc: Global,
    out: &mut Writer,
    objects: &[T],
) -> Result<(), AllocError>
    ensures tokens { OnOk result (out.new.tokens
        ≡ out.old.tokens ++ all_values (map (λ object. object_of (T.members object)) objects.now)) }
    ensures before { out.new.before ≡ out.old.before }
{
    for object in objects {
        write_object(alloc, out, object)?;
    }
    Ok(())
}

/// Writes a member whose value is a list of objects.
#[tactic(auto, using(crate::proofs::ObjectLemmas::in_list))]
pub fn write_list<T: Object>(
    alloc: Global,
    out: &mut Writer,
    name: &str,
    objects: &[T],
) -> Result<(), AllocError>
    ensures tokens { OnOk result (out.new.tokens ≡ out.old.tokens
        ++ member_tokens (list name.now (map (λ object. object_of (T.members object)) objects.now))) }
    ensures before { out.new.before ≡ out.old.before }
{
    out.key(name)?;
    out.begin_array()?;
    write_objects(alloc, out, objects)?;
    out.end_array()
}

/// Writes a member whose value is an object.
#[tactic(auto, unfolding(crate::specs::Tokens::member_tokens))]
pub fn write_nested<T: Object>(
    alloc: Global,
    out: &mut Writer,
    name: &str,
    object: &T,
) -> Result<(), AllocError>
    ensures tokens { OnOk result
        (out.new.tokens ≡ out.old.tokens ++ member_tokens (nested name.now (T.members object.now))) }
    ensures before { out.new.before ≡ out.old.before }
{
    out.key(name)?;
    write_object(alloc, out, object)
}

/// The text of an object, and LF.
pub fn object_line<T: Object>(alloc: Global, object: &T) -> Result<Vec<u8>, AllocError>
    ensures { IfOk result (λ text. text.items ≡ line_of (object_of (T.members object.now))) }
{
    let mut out = Writer::new(Vec::new(alloc));
    write_object(alloc, &mut out, object)?;
    let mut text = out.into_inner();
    text.push(b'\n')?;
    Ok(text)
}
