// What is true of improved rows.
ghost use Rattle.row_descent.specs.Law.{ImprovedAlike};

/// What was improved is improved for nets with the same pins.
pub fn improved_alike()
    ensures { ImprovedAlike }
{}
