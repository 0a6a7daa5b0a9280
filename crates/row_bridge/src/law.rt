// What is true of rows of instances and of the rows of their numbers.
ghost use Rattle.row_bridge.specs.Law.{AlikeCanBeImproved, ImprovedAbove, ImprovedHoldEachOnce, LengthsAgree, NetsAreAlike, PlacedCanBeImproved};

/// Rows of instances are as long as the rows of their numbers.
pub fn lengths_agree()
    ensures { LengthsAgree }
{}

/// What was improved by number is better by name, with ports above the rows.
pub fn improved_above()
    ensures { ImprovedAbove }
{}

/// A placement in memory can be improved by number.
pub fn placed_can_be_improved()
    ensures { PlacedCanBeImproved }
{}

/// What can be improved can be improved with nets of the same pins.
pub fn alike_can_be_improved()
    ensures { AlikeCanBeImproved }
{}

/// Rows that were improved hold each instance once.
pub fn improved_hold_each_once()
    ensures { ImprovedHoldEachOnce }
{}

/// Lists of the ports and signal pins of each class are its nets by number.
pub fn nets_are_alike()
    ensures { NetsAreAlike }
{}
