// Arrays in C order: the numbers of their elements, and indices.
#![tactic(auto)]

ghost use Rattle.axes.specs.Axes.{Indexed, Numbered};

// Each element has a number and an index, which give each other.
pub fn c_order_stands()
    ensures indexed { Indexed }
    ensures numbered { Numbered }
{}
