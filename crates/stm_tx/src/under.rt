//! The look-up of an algorithm's type by its name.

/// A call by the type of the algorithm that the first argument names, in which `A` stands for the type:
/// `under!(alg, A::read(desc, stm, a))`, `under!(alg, run::<A>(desc))` where the second type argument is to be found,
/// or `under!(alg, run(Only::<A>::new(), desc))`. It is a `match` with an arm for each algorithm, so each call is
/// direct. Who calls a function of the trait has `Algorithm` in scope.
#[macro_export]
macro_rules! under {
    ($alg:expr, A::$call:ident($($given:expr),*)) => {
        match $alg {
            $crate::Alg::Cgl => $crate::Cgl::$call($($given),*),
            $crate::Alg::Tml => $crate::Tml::$call($($given),*),
            $crate::Alg::Serial => $crate::Serial::$call($($given),*),
            $crate::Alg::OrecLazy => $crate::OrecLazy::$call($($given),*),
            $crate::Alg::OrecEager => $crate::OrecEager::$call($($given),*),
            $crate::Alg::RingSw => $crate::RingSw::$call($($given),*),
        }
    };
    ($alg:expr, $call:ident::<A>($($given:expr),*)) => {
        match $alg {
            $crate::Alg::Cgl => $call::<$crate::Cgl, _>($($given),*),
            $crate::Alg::Tml => $call::<$crate::Tml, _>($($given),*),
            $crate::Alg::Serial => $call::<$crate::Serial, _>($($given),*),
            $crate::Alg::OrecLazy => $call::<$crate::OrecLazy, _>($($given),*),
            $crate::Alg::OrecEager => $call::<$crate::OrecEager, _>($($given),*),
            $crate::Alg::RingSw => $call::<$crate::RingSw, _>($($given),*),
        }
    };
    ($alg:expr, $call:ident($calls:ident::<A>::new(), $($given:expr),*)) => {
        match $alg {
            $crate::Alg::Cgl => $call($calls::<$crate::Cgl>::new(), $($given),*),
            $crate::Alg::Tml => $call($calls::<$crate::Tml>::new(), $($given),*),
            $crate::Alg::Serial => $call($calls::<$crate::Serial>::new(), $($given),*),
            $crate::Alg::OrecLazy => $call($calls::<$crate::OrecLazy>::new(), $($given),*),
            $crate::Alg::OrecEager => $call($calls::<$crate::OrecEager>::new(), $($given),*),
            $crate::Alg::RingSw => $call($calls::<$crate::RingSw>::new(), $($given),*),
        }
    };
}
