// What the actors have, by their numbers.

ghost use Rattle.std.specs.Prelude.{◌≡◌, ◌==◌, ℕ, ◌<◌, ◌≤◌, length, None, Some, if◌then◌else◌, option_copied};
ghost use Rattle.actor_table.specs.Table.{slot_of_actor};

#[tactic(auto, using(crate::proofs::Having::slot_of_past, crate::proofs::Having::slot_of_place))]
pub(crate) fn get<T>(slots: &[Option<T>], number: u32) -> Option<&T>
    ensures { option_copied result ≡ slot_of_actor slots.now number }
{
    if number == 0 || slots.len() < number as usize {
        return None;
    }
    slots[number as usize - 1].as_ref()
}

#[tactic(auto, using(crate::proofs::Having::slot_of_past, crate::proofs::Having::slot_of_place, crate::proofs::Having::slot_of_set))]
pub(crate) fn take<T>(slots: &mut [Option<T>], number: u32) -> Option<T>
    ensures result { result ≡ slot_of_actor slots.old number }
    ensures length { length slots.new ≡ length slots.old }
    ensures slots { (n : ℕ) → slot_of_actor slots.new n ≡ (if n == number then None else slot_of_actor slots.old n) }
{
    if number == 0 || slots.len() < number as usize {
        return None;
    }
    slots[number as usize - 1].take()
}

#[tactic(auto, using(crate::proofs::Having::slot_of_set))]
pub(crate) fn set<T: Drop>(slots: &mut [Option<T>], number: u32, value: T)
    requires known { 0 < number }
    requires within { number ≤ length slots.old }
    ensures length { length slots.new ≡ length slots.old }
    ensures slots { (n : ℕ) → slot_of_actor slots.new n ≡ (if n == number then Some value else slot_of_actor slots.old n) }
{
    slots[number as usize - 1] = Some(value);
}

#[tactic(auto, using(crate::proofs::Having::empty_more, crate::proofs::Having::all_empty))]
pub(crate) fn clear<T: Drop>(slots: &mut [Option<T>])
    ensures length { length slots.new ≡ length slots.old }
    ensures slots { (n : ℕ) → slot_of_actor slots.new n ≡ None }
{
    for slot in slots.iter_mut() {
        *slot = None;
    }
}
