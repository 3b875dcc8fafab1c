mod engine;
mod faults;
mod gates;
mod jobs;
mod posts;
mod runs;
