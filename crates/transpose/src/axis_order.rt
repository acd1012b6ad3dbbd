// Orders of axes.
ghost use Rattle.std.specs.Prelude.{◌≡◌, ◌↔◌, IsTrue, length};
ghost use Rattle.form.specs.Shapes.{on};
ghost use Rattle.transpose.specs.Transpose.{Permutes, is_order};

// Whether the entries are the axes of an array, each of them once.
pub(crate) fn is_order(order: &[usize]) -> bool
    ensures value { result ≡ is_order order.now }
    ensures ordered { IsTrue result ↔ Permutes (on order.now) (length order.now) }
{
    (1..=4).contains(&order.len()) && (0..order.len()).all(|axis| order.contains(&axis))
}
