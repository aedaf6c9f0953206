//! What the faults of lines are to the blocks that they nest as.
ghost use Rattle.mpy_parser.specs.NestingLaws.{NestedInOneWay, NestedWithoutBlockFault};
ghost use Rattle.mpy_parser.specs.NestingLaws.{NestedWithoutFault, NestedWithoutIndentFault};
ghost use Rattle.mpy_parser.specs.NestingLaws.{SameIndentFault};

/// Lines that nest have no fault of blocks.
pub fn nested_without_block_fault()
    ensures holds { NestedWithoutBlockFault }
{}

/// Lines that nest have no fault of columns.
pub fn nested_without_indent_fault()
    ensures holds { NestedWithoutIndentFault }
{}

/// Lines without a fault nest.
pub fn nested_without_fault()
    ensures holds { NestedWithoutFault }
{}

/// Lines nest in one way at most.
pub fn nested_in_one_way()
    ensures holds { NestedInOneWay }
{}

/// Lines have the faults of columns that their items have.
pub fn same_indent_fault()
    ensures holds { SameIndentFault }
{}
