//! What the words of the command line set.

/// What the program is to do.
#[derive(Clone, Copy, Debug)]
pub(crate) enum Mode {
    /// Answer the statements of a script, all queries together: `--mode run`, and where no mode is
    /// named.
    Run,
    /// The same, with each query evaluated by itself: `--mode alone`.
    Alone,
    /// Make a workload and answer it: `--mode make`.
    Make,
    /// Serve connections, many at once: `--mode serve`.
    Serve,
}

/// What the words of the command line set. What they leave out has its default.
#[derive(Clone, Copy, Debug)]
pub(crate) struct Settings {
    /// `--mode`, `run`, `alone`, `make` or `serve`. Default `run`.
    pub mode: Mode,
    /// `--workers`, 0 to 16: the threads that work on batches beside the one that reads. Default 0.
    pub workers: u32,
    /// `--slots`, 1 to 64: the queries that may run at once. Default 64.
    pub slots: u32,
    /// `--batch`, 1 to 1024: the most rows of a batch. Default 256.
    pub batch: u32,
    /// `--seed`, 0 to 9999999: where the draws of a made workload start. Default 7.
    pub seed: u32,
    /// `--rows`, 0 to 1000000: the rows of the fact table of a made workload. Default 100000.
    pub rows: u32,
    /// `--port`, 1 to 65535: where connections are waited for. Default 5433.
    pub port: u16,
    /// `--accept`, 0 to 9999999: how many connections are taken, or 0 for any number. Default 0.
    pub accept: u32,
}
