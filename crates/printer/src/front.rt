// How many elements at the front of a slice are lent.
ghost use Rattle.printer.specs.Within.{Within};

// How many of so many elements there are: a number for `&xs[..n]`.
pub fn front_of<T>(xs: &[T], n: usize) -> usize
    ensures { Within n xs.now result }
{
    n.min(xs.len())
}
