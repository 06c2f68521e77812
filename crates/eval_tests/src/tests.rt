// Tests of runs of scripts.
mod runs;
