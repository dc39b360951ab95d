// A lent list set to 0.
ghost use Rattle.std.specs.Prelude.{◌≡◌, ◌≤◌, ◌++◌, length, drop, replicate};

// Zeroes the first n places. A list inside the sheet is filled here, since a proof loses what is written to a part of it there.
pub fn clear(list: &mut [u64], n: usize)
    requires { n ≤ length list.old }
    ensures { list.new ≡ replicate n 0 ++ drop n list.old }
{
    list[..n].fill(0);
}
