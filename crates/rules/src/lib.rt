// The Shape and Twice rules for the lists of a change. The calls judge their arguments by them, and the journal's reader its records.
#![tactic(auto)]

ghost use Rattle.std.specs.Prelude.{◌≡◌, true, false, ℕ, ◌≤◌, ltb, leb, get_or};
ghost use Rattle.model.specs.Lists.{both, all_b, twice_b, rising_from};
ghost use Rattle.model.specs.Judgement.{objects_shaped, stamps_shaped};

// Every object is one of the store's.
fn all_objects(objects: &[u64]) -> bool
    ensures { result ≡ all_b (λ o. ltb o 512) objects.now }
{
    objects.iter().all(|object| *object < 512)
}

#[tactic(auto, unfolding(model::specs::Judgement::objects_shaped))]
pub fn objects_shaped(objects: &[u64]) -> bool
    ensures { result ≡ objects_shaped objects.now }
{
    (1..=16).contains(&objects.len()) && all_objects(objects)
}

// Some object is met again; seen marks those met so far.
fn met_again(objects: &[u64], seen: &mut [bool; 512]) -> bool
    requires { (all_b (λ o. ltb o 512) objects.now ≡ true) × ((o : ℕ) → get_or seen.old o false ≡ false) }
    ensures { result ≡ twice_b objects.now }
{
    for object in objects {
        let object = *object as usize;
        if seen[object] {
            return true;
        }
        seen[object] = true;
    }
    false
}

// Some object is named twice.
#[tactic(auto, using(crate::proofs::Marks::few_once))]
pub fn named_twice(objects: &[u64]) -> bool
    requires { all_b (λ o. ltb o 512) objects.now ≡ true }
    ensures { result ≡ twice_b objects.now }
{
    if objects.len() < 2 {
        return false;
    }
    let mut seen = [false; 512];
    met_again(objects, &mut seen)
}

// Strictly ascending, and each with prev < stamp <= curr: the last one is the largest. No stamp ends the loop early.
pub fn ascending_within(prev: u64, curr: u64, stamps: &[u64]) -> bool
    requires { prev ≤ curr }
    ensures { result ≡ both (rising_from prev stamps.now) (all_b (λ s. leb s curr) stamps.now) }
{
    let mut rising = true;
    let mut below = prev;
    for stamp in stamps {
        if *stamp <= below {
            rising = false;
        }
        below = *stamp;
    }
    rising && below <= curr
}

#[tactic(auto, unfolding(model::specs::Judgement::stamps_shaped))]
pub fn stamps_shaped(prev: u64, curr: u64, stamps: &[u64]) -> bool
    ensures { result ≡ stamps_shaped prev curr stamps.now }
{
    stamps.len() <= 16 && prev <= curr && ascending_within(prev, curr, stamps)
}
