//! Laws of the definitions, each the contract of a function that does nothing.
ghost use Rattle.ft_flow.specs.Laws.{SmallTextIsRead, SparesChangeNothing, WrongTextIsRefused};

/// A well-formed flow has the same outputs, and is done after the same steps, whether or not its stores and jumps set
/// their spares.
pub fn spares_change_nothing()
    ensures { SparesChangeNothing }
{}

/// A text of one block that stores 7 is read as it should be, and refused at its line if the store reads another pair.
pub fn small_text_is_read()
    ensures read { SmallTextIsRead }
    ensures refused { WrongTextIsRefused }
{}
