//! Laws of the messages of steps: each function's contract is one.
ghost use Rattle.std.specs.Prelude.{List};
ghost use Rattle.fints_script_rows.specs.declared.fields.NamedField.{NamedField};
ghost use Rattle.fints_script.specs.Plans.{Admits};
ghost use Rattle.fints_wire.specs.Choices.{longest_choice, shortest_choice};
ghost use Rattle.fints_wire.specs.Laws.{AccountsArePutIn, BodyHasNoOthers, BodyIsTemplates, DialogIsOneItem, EachSignerEnds, ElementsAreFilled, FieldsArePutIn, LiteralsStand, LongestValuesAreMost, MessagesAreShort, OnlyItsItemsAreSet, SetValueIsAdmitted};
ghost use Rattle.fints_wire.specs.Views.{MessagesAreRead};

/// The bytes of a step's message are a message, and what is read in it is what the step says, with
/// the choice put in.
pub fn messages_are_read()
    ensures { MessagesAreRead }
{}

/// The body of a step's message, place by place: the templates filled, numbered on after HNHBK and
/// the signers' HNSHK; and as many HNSHA as signers.
pub fn bodies_are_templates()
    ensures segments { BodyIsTemplates }
    ensures count { BodyHasNoOthers }
    ensures signatures { EachSignerEnds }
{}

/// The longest and the shortest values of all fields are choices.
pub fn extremes_are_admitted()
    ensures longest { (fields : List NamedField) → Admits fields (longest_choice fields) }
    ensures shortest { (fields : List NamedField) → Admits fields (shortest_choice fields) }
{}

/// What an element of a filled segment has, from element 2 on: the items of the template's
/// element. The literal ones depend on no choice and no number.
pub fn elements_are_filled()
    ensures values { ElementsAreFilled }
    ensures literal { LiteralsStand }
{}

/// Each field is filled with the items of the value that is chosen for it.
pub fn fields_are_put_in()
    ensures { FieldsArePutIn }
{}

/// An element that is one account field has the items of the listed account whose text is chosen.
pub fn accounts_are_put_in()
    ensures { AccountsArePutIn }
{}

/// The dialogue id is one item, which is never empty: `0` in message 1, and afterwards 1 to
/// 30 bytes.
pub fn dialog_is_one_item()
    ensures { DialogIsOneItem }
{}

/// A choice in which one field is given another value of its domain is a choice, and only the items
/// of that field are others.
pub fn values_may_be_set()
    ensures admitted { SetValueIsAdmitted }
    ensures items { OnlyItsItemsAreSet }
{}

/// No message of a step of this number or a lower one is longer than that of the longest values, and
/// none has 1,048,576 bytes.
pub fn none_is_longer()
    ensures most { LongestValuesAreMost }
    ensures short { MessagesAreShort }
{}
