// One change of an element, made to each element of a list. Layers change kinds and rows alike.
ghost use Rattle.std.specs.Prelude.{◌≡◌, map};

// A trait of one method in place of a bound `Fn`, under which each caller would have to show that the change may be called; and its ghost member
// lets a clause name what the list becomes by `map`.
pub trait Change<T> {
    // what becomes of an element
    ghost changed: { Self → T → T };

    fn apply(&self, x: T) -> T
        ensures { result ≡ changed self.now x };
}

// Makes the change to each element.
#[tactic(auto, using(std::proofs::lemmas::List::Edits::map_over_more))]
pub fn change_all<T: Copy, C: Change<T>>(xs: &mut [T], by: &C)
    ensures { xs.new ≡ map (C.Change.changed by.now) xs.old }
{
    for x in xs.iter_mut() {
        *x = by.apply(*x);
    }
}
