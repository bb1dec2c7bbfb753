// The floor file, by subject; `samples`, `damage` and `answers` hold what the tests share.
mod answers;
mod damage;
mod faults;
mod fixture_records;
mod frames;
mod lengths;
mod plate_records;
mod rooms;
mod samples;
mod sizes;
mod sums;
mod written;
