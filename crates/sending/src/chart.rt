// The chart that an open transmitter follows, the code A down and the code B across.
ghost use Rattle.std.specs.Prelude.{◌≡◌, ◌<◌};
ghost use Rattle.sending.specs.Chart.{chart_of};

// What the chart says at a code A and a code B.
#[derive(Clone, Copy, PartialEq, Eq)]
pub enum Entry {
    Stay,
    Close,
    CloseWithError,
    CloseWithSuccess,
}

use Entry::{Close, CloseWithError, CloseWithSuccess, Stay};

const CHART: [[Entry; 4]; 4] = [
    [Close, Close, Close, Close],
    [CloseWithError, Stay, CloseWithError, Stay],
    [CloseWithError, Stay, CloseWithError, Stay],
    [CloseWithError, Stay, CloseWithError, CloseWithSuccess],
];

// The chart's entry at a code A and a code B.
pub fn look_up(a: u16, b: u16) -> Entry
    requires { (a < 4) × (b < 4) }
    ensures { result ≡ chart_of a b }
{
    CHART[a as usize][b as usize]
}
