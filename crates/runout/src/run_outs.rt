// What a run-out comes to. That its numbers are small, which each run-out of a plate ensures as `Small`, is no ghost field: the fields are public, and whoever builds a run-out would be asked for it.
#[derive(Clone, Copy, Debug, PartialEq, Eq)]
pub struct RunOut {
    // in nm
    pub travel: u64,
    // in ms, until the cart rests
    pub time: u32,
    // the highest speed, in nm per ms
    pub peak: u64,
}
