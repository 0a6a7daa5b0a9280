// What is true of the nets of a netlist.
ghost use Rattle.nero_tracks.specs.Drawable.{ColumnsAreFree};
ghost use Rattle.nero_tracks.specs.Law.{NetsAreNumbered, NetsHaveNumbers, NetsAreCounted};

/// The nets of a well formed netlist are numbered as a drawing with tracks asks.
pub fn nets_are_numbered()
    ensures { NetsAreNumbered }
{}

/// So they are as any drawing asks, whatever the columns of pins.
pub fn nets_have_numbers()
    ensures { NetsHaveNumbers }
{}

/// They are all its classes but those of vdd and vss.
pub fn nets_are_counted()
    ensures { NetsAreCounted }
{}

/// No netlist is refused for its columns over a library that was checked for tracks.
pub fn columns_are_free()
    ensures { ColumnsAreFree }
{}
