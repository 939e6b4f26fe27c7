// The theorems on diagrams, calls, layouts and sheets. Each function carries one theorem, as what it ensures: it is there to be proved, not
// to be called.
#![tactic(auto)]

ghost use Rattle.diagrams.specs.Theorems.{Canonical, Answered, Only, Composes, Deeper, AllTied, Listed, LayoutsStayValid};
ghost use Rattle.diagrams.specs.Written.{Returns, Accepts, Faults, Faithful, Ordered, LowFirst, Measured, Spelled};

// Good diagrams that grade every fruit alike are one diagram.
pub fn canonicity()
    ensures { Canonical }
{}

// A call's answer is a good diagram, no higher than the operands, with the rule that the call means.
pub fn answered()
    ensures { Answered }
{}

// That answer is the only such diagram.
pub fn only_answer()
    ensures { Only }
{}

// Building from smaller calls gives that answer.
pub fn composes()
    ensures { Composes }
{}

// A smaller call stands deeper, so no more than size + 1 calls are open inside one another.
pub fn deepens()
    ensures { Deeper }
{}

// No smaller call is left out: what a smaller call is given, and what a shortcut answers, is at hand.
pub fn ties()
    ensures { AllTied }
{}

// The diagrams that a call needs are a list.
pub fn needs_are_listed()
    ensures { Listed }
{}

// Whatever a call that sets up a layout lays is a valid layout.
pub fn layouts_stay_valid()
    ensures { LayoutsStayValid }
{}

// Writing a diagram, then reading the sheet, gives the diagram back.
pub fn reads_back()
    ensures { Returns }
{}

// Reading accepts the sheets of good diagrams that have room, and no other bytes.
pub fn accepts_sheets_only()
    ensures { Accepts }
{}

// Reading tells a fault just where it is the first that the bytes have.
pub fn tells_first_fault()
    ensures { Faults }
{}

// Two sheets are equal just where their diagrams grade every fruit alike.
pub fn sheets_tell_rules()
    ensures { Faithful }
{}

// A sheet holds all that its diagram reaches and no more, once each, children before parents, the diagram last.
pub fn writes_in_order()
    ensures { Ordered }
{}

// A node's records are its low child's, its high child's but for what came before, each as on the child's own sheet, then the node.
pub fn low_first()
    ensures { LowFirst }
{}

// How long a sheet is: 12 bytes and 2 a level, 8 a leaf or node, and 1 more a node.
pub fn measures_sheets()
    ensures { Measured }
{}

// All that a sheet holds are bytes.
pub fn spells_bytes()
    ensures { Spelled }
{}
